//! The script that plays a round: what the core and the queues are after each turn.

/// From the data to the script that draws. It changes a picture of the round by the events of the data and knows no rule of the machine. A copy
/// of the picture is kept every `STRIDE` turns, so that any turn is reached quickly.
pub(crate) const ROUND_SCRIPT: &[u8] = b"</script>
<script>
'use strict';

// What the data hold: core, position, processes (of both sides), first (the side that moves first), loaded and turns.
// An event is an address (a process is added there), an address with a text (a cell holds it now), or a side with an address
// (the side's turn begins: the process at the front of its queue executes the cell at this address).
const round = JSON.parse(document.getElementById('round').textContent);
const turns = round.turns.length;
const BLANK = 'DAT.F $0, $0';

// ---- the picture of the round after some turns

// A writer or a runner is 0 for nobody, 1 for the older warrior, and 2 for the younger one.
function opening() {
  const picture = {
    turn: 0,
    texts: new Array(round.core).fill(BLANK),
    writers: new Uint8Array(round.core),
    runners: new Uint8Array(round.core),
    queues: [[round.processes[0]], [round.processes[1]]],
  };
  for (const [cell, text] of round.loaded) {
    put(picture, cell, text, cell < round.position ? 0 : 1);
  }
  return picture;
}

function copyOf(picture) {
  return {
    turn: picture.turn,
    texts: picture.texts.slice(),
    writers: picture.writers.slice(),
    runners: picture.runners.slice(),
    queues: [picture.queues[0].slice(), picture.queues[1].slice()],
  };
}

function put(picture, cell, text, side) {
  picture.texts[cell] = text;
  picture.writers[cell] = side + 1;
  picture.runners[cell] = 0;
}

// One turn more.
function advance(picture) {
  let side = 0;
  for (const event of round.turns[picture.turn]) {
    if (typeof event === 'number') {
      picture.queues[side].push(event);
    } else if (typeof event[1] === 'string') {
      put(picture, event[0], event[1], side);
    } else {
      side = event[0];
      picture.queues[side].shift();
      picture.runners[event[1]] = side + 1;
    }
  }
  picture.turn += 1;
}

// ---- the way to a turn

// Turns from one picture that is kept to the next.
const STRIDE = Math.max(500, Math.ceil(turns / 100));

// The pictures after 0, STRIDE, 2 * STRIDE .. turns, as far as the round was played.
const kept = [opening()];
let shown = copyOf(kept[0]);

// Shows the picture after so many turns.
function go(turn) {
  const target = Math.max(0, Math.min(turns, Math.floor(turn) || 0));
  const nearest = kept[Math.min(kept.length - 1, Math.floor(target / STRIDE))];
  if (target < shown.turn || shown.turn < nearest.turn) {
    shown = copyOf(nearest);
  }
  while (shown.turn < target) {
    advance(shown);
    if (shown.turn === kept.length * STRIDE) {
      kept.push(copyOf(shown));
    }
  }
  draw();
}

// The turn that comes next, a side with an address; at the end of the turns there is none.
function nextTurn() {
  return shown.turn < turns ? round.turns[shown.turn][0] : null;
}
";

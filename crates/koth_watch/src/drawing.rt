//! The script that draws a round, and what its controls do.

/// From the script that plays a round to its end.
pub(crate) const DRAWING_SCRIPT: &[u8] = b"
// ---- the core

const element = (id) => document.getElementById(id);
const canvas = element('core');
const brush = canvas.getContext('2d');
let size = 1;
let columns = 1;
let colours = {};

function readColours() {
  const style = getComputedStyle(document.documentElement);
  const colour = (name) => style.getPropertyValue(name).trim();
  colours = {
    blank: colour('--blank'),
    text: colour('--text'),
    wrote: ['', colour('--older-wrote'), colour('--younger-wrote')],
    ran: ['', colour('--older'), colour('--younger')],
  };
}

// Takes the largest cells with which the whole core has room.
function fit() {
  const scale = window.devicePixelRatio || 1;
  const width = Math.floor(element('frame').clientWidth * scale);
  const height = Math.max(200 * scale, window.innerHeight * 0.45 * scale);
  size = Math.floor(22 * scale);
  while (size > 2 && Math.ceil(round.core / Math.floor(width / size)) * size > height) {
    size -= 1;
  }
  columns = Math.max(1, Math.min(round.core, Math.floor(width / size)));
  canvas.width = columns * size;
  canvas.height = Math.ceil(round.core / columns) * size;
  canvas.style.width = canvas.width / scale + 'px';
  canvas.style.height = canvas.height / scale + 'px';
  draw();
}

// Fills the cell at an address but for a margin.
function fill(cell, colour, margin) {
  const left = (cell % columns) * size;
  const top = Math.floor(cell / columns) * size;
  brush.fillStyle = colour;
  brush.fillRect(left + margin, top + margin, size - gap() - 2 * margin, size - gap() - 2 * margin);
}

// Pixels between two cells.
function gap() {
  return size > 3 ? 1 : 0;
}

function drawCore() {
  brush.clearRect(0, 0, canvas.width, canvas.height);
  for (let cell = 0; cell < round.core; cell += 1) {
    const ran = shown.runners[cell];
    const wrote = shown.writers[cell];
    fill(cell, ran ? colours.ran[ran] : wrote ? colours.wrote[wrote] : colours.blank, 0);
  }
  for (const queue of shown.queues) {
    for (const cell of queue) {
      fill(cell, colours.text, Math.floor(size / 3));
    }
  }
}

function drawNext() {
  const next = nextTurn();
  if (next === null) return;
  const left = (next[1] % columns) * size;
  const top = Math.floor(next[1] / columns) * size;
  const margin = Math.max(2, Math.floor(size / 6));
  brush.strokeStyle = colours.text;
  brush.lineWidth = margin;
  brush.strokeRect(left - margin / 2, top - margin / 2, size - gap() + margin, size - gap() + margin);
}

// ---- the words

const names = [0, 1].map((side) => element('side-' + side).querySelector('.name').textContent);
const AROUND = 6;

// Where the listing stands: at the next instruction, and behind the last turn at the last one.
function place() {
  const next = nextTurn();
  if (next !== null) return next[1];
  return turns > 0 ? round.turns[turns - 1][0][1] : round.processes[round.first];
}

function textOf(cell) {
  const wrote = shown.writers[cell];
  const ran = shown.runners[cell];
  const words = [];
  if (wrote) words.push('written by ' + names[wrote - 1]);
  if (ran) words.push('executed by ' + names[ran - 1]);
  return words.join(', ');
}

function drawListing() {
  const middle = place();
  const rows = [];
  for (let step = -AROUND; step <= AROUND; step += 1) {
    const cell = (middle + step + round.core) % round.core;
    const row = document.createElement('tr');
    if (step === 0) row.className = 'now';
    for (const text of [String(cell), shown.texts[cell], textOf(cell)]) {
      row.appendChild(document.createElement('td')).textContent = text;
    }
    rows.push(row);
  }
  element('listing').replaceChildren(...rows);
}

function drawSides() {
  const next = nextTurn();
  for (const side of [0, 1]) {
    const count = shown.queues[side].length;
    const moves = next !== null && next[0] === side;
    const turn = moves ? ', executes ' + next[1] + ' next' : '';
    element('count-' + side).textContent = count + (count === 1 ? ' process' : ' processes') + turn;
    element('side-' + side).classList.toggle('next', moves);
  }
  element('turn').textContent = 'turn ' + shown.turn + ' of ' + turns;
  element('slider').value = shown.turn;
}

function draw() {
  drawCore();
  drawNext();
  drawListing();
  drawSides();
}

// ---- the controls

let playing = false;
let last = 0;
let due = 0;

function tick(now) {
  if (!playing) return;
  due += Math.min(0.25, (now - last) / 1000) * Number(element('speed').value);
  last = now;
  const whole = Math.floor(due);
  due -= whole;
  if (whole > 0) go(shown.turn + whole);
  if (shown.turn === turns) {
    stop();
  } else {
    requestAnimationFrame(tick);
  }
}

function start() {
  if (shown.turn === turns) go(0);
  playing = true;
  due = 0;
  last = performance.now();
  element('play').textContent = 'Pause';
  requestAnimationFrame(tick);
}

function stop() {
  playing = false;
  element('play').textContent = 'Play';
  history.replaceState(null, '', '#' + shown.turn);
}

function stopAt(turn) {
  go(turn);
  stop();
}

element('slider').max = turns;
element('play').addEventListener('click', () => (playing ? stop() : start()));
element('back').addEventListener('click', () => stopAt(shown.turn - 1));
element('step').addEventListener('click', () => stopAt(shown.turn + 1));
element('slider').addEventListener('input', (event) => stopAt(Number(event.target.value)));
window.addEventListener('hashchange', () => stopAt(Number(location.hash.slice(1))));

// What a key does; null if nothing. Space is left to a button, and every key to the slider and the speed.
function actionOf(key, control) {
  if (control === 'INPUT' || control === 'SELECT') return null;
  if (key === ' ') return control === 'BUTTON' ? null : () => (playing ? stop() : start());
  if (key === 'ArrowLeft' || key === ',') return () => stopAt(shown.turn - 1);
  if (key === 'ArrowRight' || key === '.') return () => stopAt(shown.turn + 1);
  if (key === 'Home') return () => stopAt(0);
  if (key === 'End') return () => stopAt(turns);
  return null;
}

window.addEventListener('keydown', (event) => {
  if (event.ctrlKey || event.altKey || event.metaKey) return;
  const action = actionOf(event.key, event.target.tagName);
  if (action === null) return;
  event.preventDefault();
  action();
});
window.addEventListener('resize', fit);
window.matchMedia('(prefers-color-scheme: dark)').addEventListener('change', () => {
  readColours();
  draw();
});
readColours();
fit();
go(Number(location.hash.slice(1)));
";

//! The parts of a page that are the same for every round.

/// From the beginning of a page to its title.
pub(crate) const HEAD: &[u8] = b"<!DOCTYPE html>
<html lang=\"en\">
<head>
<meta charset=\"utf-8\">
<meta name=\"viewport\" content=\"width=device-width, initial-scale=1\">
<title>";

/// From the title to the heading. The style sheet is here.
pub(crate) const STYLE: &[u8] = b"</title>
<style>
:root { color-scheme: light dark; --page: #fcfbf8; --text: #22211e; --quiet: #66645d; --line: #dad7ce; --band: #f3f1ea; --blank: #eceae2;
  --older: #2563b0; --older-wrote: #a9c8ee; --younger: #c2540a; --younger-wrote: #f6c79e; }
@media (prefers-color-scheme: dark) {
  :root { --page: #171715; --text: #e7e5de; --quiet: #a5a299; --line: #3b3a35; --band: #20201d; --blank: #262622;
    --older: #6ea8f0; --older-wrote: #274a75; --younger: #f2924a; --younger-wrote: #733a14; }
}
body { margin: 0; background: var(--page); color: var(--text); font: 1rem/1.5 system-ui, sans-serif; }
main { max-width: 76rem; margin: 0 auto; padding: 1.25rem 1rem 2rem; }
h1 { margin: 0 0 0.25rem; font-size: 1.5rem; line-height: 1.2; overflow-wrap: anywhere; }
p { margin: 0 0 0.75rem; }
.warriors { display: grid; grid-template-columns: 1fr 1fr; gap: 0 1rem; margin: 0 0 0.75rem; }
.warriors > div { padding-left: 0.6rem; border-left: 0.35rem solid var(--older); overflow-wrap: anywhere; }
.warriors > .younger { border-color: var(--younger); }
.count { color: var(--quiet); font-variant-numeric: tabular-nums; }
.next .count { color: var(--text); font-weight: 600; }
canvas { display: block; background: var(--page); }
.controls { display: flex; flex-wrap: wrap; align-items: center; gap: 0.5rem; margin: 0.75rem 0; }
.controls input { flex: 1 1 14rem; min-width: 8rem; margin: 0; accent-color: var(--text); }
.controls output { min-width: 11rem; font-variant-numeric: tabular-nums; }
button, select { font: inherit; color: inherit; background: var(--band); border: 1px solid var(--line); border-radius: 0.3rem; padding: 0.25rem 0.7rem; }
#play { min-width: 5rem; }
.below { display: flex; flex-wrap: wrap; gap: 0.75rem 3rem; }
table { border-spacing: 0; font: 0.85rem/1.45 ui-monospace, monospace; white-space: pre; }
td { padding: 0 0.6rem; }
td:first-child { color: var(--quiet); text-align: right; }
td:last-child { white-space: normal; overflow-wrap: anywhere; font-family: system-ui, sans-serif; color: var(--quiet); }
.now td { background: var(--band); color: var(--text); font-weight: 600; }
ul { margin: 0; padding: 0; list-style: none; font-size: 0.9rem; color: var(--quiet); }
li { display: flex; align-items: center; gap: 0.5rem; }
i { display: inline-block; box-sizing: border-box; width: 0.9rem; height: 0.9rem; background: var(--blank); }
.wrote-0 { background: var(--older-wrote); }
.wrote-1 { background: var(--younger-wrote); }
.ran-0 { background: var(--older); }
.ran-1 { background: var(--younger); }
.waits { border: 0.3rem solid var(--blank); background: var(--text); }
.comes { border: 2px solid var(--text); }
</style>
</head>
<body>
<main>
<h1>";

/// From what is said of the round to the name of the older warrior.
pub(crate) const OLDER_START: &[u8] = b"<div class=\"warriors\">
<div class=\"older\" id=\"side-0\"><b class=\"name\">";

/// From the older warrior's author to the name of the younger one.
pub(crate) const YOUNGER_START: &[u8] = b"<br><span class=\"count\" id=\"count-0\"></span></div>
<div class=\"younger\" id=\"side-1\"><b class=\"name\">";

/// What follows the younger warrior's author.
pub(crate) const WARRIORS_END: &[u8] = b"<br><span class=\"count\" id=\"count-1\"></span></div>
</div>
";

/// From the warriors to the data: the core, the controls, the listing and the legend.
pub(crate) const CONTROLS: &[u8] =
    b"<noscript><p>This page plays a round by a script, and your browser runs none here.</p></noscript>
<div id=\"frame\"><canvas id=\"core\" role=\"img\" aria-label=\"The core, cell by cell from the upper left corner on\"></canvas></div>
<div class=\"controls\">
<button id=\"play\" type=\"button\">Play</button>
<button id=\"back\" type=\"button\">Back</button>
<button id=\"step\" type=\"button\">Step</button>
<select id=\"speed\" aria-label=\"Speed\">
<option value=\"2\">2 turns a second</option>
<option value=\"20\">20 turns a second</option>
<option value=\"200\" selected>200 turns a second</option>
<option value=\"2000\">2,000 turns a second</option>
<option value=\"20000\">20,000 turns a second</option>
</select>
<input id=\"slider\" type=\"range\" min=\"0\" max=\"0\" value=\"0\" aria-label=\"Turn\">
<output id=\"turn\" for=\"slider\"></output>
</div>
<div class=\"below\">
<table aria-label=\"The cells round the next instruction\"><tbody id=\"listing\"></tbody></table>
<ul>
<li><i class=\"wrote-0\"></i><i class=\"wrote-1\"></i>loaded or written by the warrior of this colour</li>
<li><i class=\"ran-0\"></i><i class=\"ran-1\"></i>executed since by the warrior of this colour</li>
<li><i class=\"waits\"></i>a process waits here</li>
<li><i class=\"comes\"></i>executed next</li>
</ul>
</div>
<script type=\"application/json\" id=\"round\">
";

/// What follows the scripts.
pub(crate) const END: &[u8] = b"</script>
</main>
</body>
</html>
";

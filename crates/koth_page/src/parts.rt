//! The parts of a page that are the same for every hill and every ranking.

/// From the beginning of a page to its title as the browser's.
pub(crate) const HEAD: &[u8] = b"<!DOCTYPE html>
<html lang=\"en\">
<head>
<meta charset=\"utf-8\">
<meta name=\"viewport\" content=\"width=device-width, initial-scale=1\">
<title>";

/// From there to the title on the page. The style sheet is here.
pub(crate) const BODY_START: &[u8] = b"</title>
<style>
:root {
  color-scheme: light dark; --page: #fcfbf8; --text: #22211e; --quiet: #66645d; --line: #dad7ce; --band: #f3f1ea;
  --w1: #e3ecf6; --w2: #c8daee; --w3: #a8c5e5; --w4: #86aedb;
  --l1: #f9e6d8; --l2: #f3ceb2; --l3: #ebb389; --l4: #e19b66;
}
@media (prefers-color-scheme: dark) {
  :root {
    --page: #171715; --text: #e7e5de; --quiet: #a5a299; --line: #3b3a35; --band: #20201d;
    --w1: #1c2836; --w2: #20364f; --w3: #25466d; --w4: #2b568b;
    --l1: #33251b; --l2: #4b301d; --l3: #643d20; --l4: #7d4922;
  }
}
body { margin: 0; background: var(--page); color: var(--text); font: 1rem/1.5 system-ui, sans-serif; }
main { max-width: 78rem; margin: 0 auto; padding: 1.5rem 1rem 3rem; overflow-wrap: anywhere; }
h1 { margin: 0 0 0.5rem; font-size: 1.75rem; line-height: 1.2; }
h2 { margin: 2rem 0 0.5rem; font-size: 1.2rem; }
p { margin: 0 0 1rem; max-width: 44rem; }
.king { max-width: none; }
.king b { font-size: 1.25rem; }
.king span { display: inline-block; margin-left: 1.5rem; }
pre { margin: 0 0 0.5rem; padding: 0.6rem 0.8rem; background: var(--band); font-size: 0.85rem; white-space: pre-wrap; }
details { margin: 1rem 0; color: var(--quiet); font-size: 0.9rem; }
details p { margin: 0.5rem 0; }
summary { cursor: pointer; }
.scroll { overflow-x: auto; }
table { border-spacing: 0; font-variant-numeric: tabular-nums; white-space: nowrap; }
caption { padding-bottom: 0.5rem; color: var(--quiet); font-size: 0.85rem; text-align: left; white-space: normal; }
th, td { padding: 0.3rem 0.7rem; border-bottom: 1px solid var(--line); text-align: right; }
th { color: var(--quiet); font-size: 0.85rem; font-weight: 600; }
tr { background: var(--page); }
tbody tr:nth-child(even) { background: var(--band); }
.name { text-align: left; white-space: normal; overflow-wrap: anywhere; }
.standing .name { min-width: 8rem; }
tbody .name { color: inherit; font-size: inherit; font-weight: 400; }
.matches { font-size: 0.75rem; }
.matches th { font-size: inherit; }
.matches th, .matches td { min-width: 2.5rem; padding: 0.3rem 0.1rem; text-align: center; }
.matches .name { position: sticky; left: 0; min-width: 6rem; max-width: 9rem; background: inherit; text-align: left; }
.self { color: var(--quiet); }
.w1 { background: var(--w1); } .w2 { background: var(--w2); }
.w3 { background: var(--w3); } .w4 { background: var(--w4); }
.l1 { background: var(--l1); } .l2 { background: var(--l2); }
.l3 { background: var(--l3); } .l4 { background: var(--l4); }
a { color: inherit; }
.matches a { text-decoration: none; }
.matches a:is(:hover, :focus) { text-decoration: underline; }
@media (max-width: 40rem) {
  .king span { display: block; margin-left: 0; }
  .standing { font-size: 0.9rem; }
  .standing th, .standing td { padding: 0.3rem 0.35rem; }
  .standing :is(th, td):nth-child(n + 5) { display: none; }
  .standing .name { min-width: 4rem; }
}
</style>
</head>
<body>
<main>
<h1>";

/// How a warrior comes onto a hill without any.
pub(crate) const EMPTY: &[u8] =
    b"<p>No warrior is on this hill yet. A source in Redcode that is submitted comes onto it, as long as a place is
free. After that, the one with the fewest points falls.</p>
";

/// What follows the line of the settings of a hill: what a hill is.
pub(crate) const RULES: &[u8] = b"</summary>
<p>A hill is a table of warriors of Core War, each of which has fought all the others: a round that it won counts three
points, and a round that nobody won counts one. If a warrior comes to a full hill, the one with the fewest points
falls.</p>";

/// What follows the line of the settings of a ranking: what a ranking is.
pub(crate) const RANKING_RULES: &[u8] = b"</summary>
<p>Each two of these warriors of Core War have fought each other: a round that a warrior won counts three points for
it, and a tie counts one. Of those with as many points the earlier source is first.</p>";

/// What follows these: what the settings mean.
pub(crate) const MEANINGS: &[u8] = b"
<p>Core is the number of cells. After these cycles, in each of which both warriors have a turn, a round is a tie. A
warrior has at most these processes, and its length is at most that; two are loaded at least the distance apart.
Limits say how far from itself an instruction reads and writes.</p>
</details>
";

/// What a ranking without warriors has in place of tables.
pub(crate) const UNRANKED: &[u8] = b"<p>There is no warrior to rank.</p>\n";

/// From the settings to the headings of the table.
pub(crate) const STANDING_START: &[u8] = b"<h2 id=\"table\">Table</h2>
<div class=\"scroll\" role=\"region\" aria-labelledby=\"table\" tabindex=\"0\">
<table class=\"standing\">
<caption>Warriors by rank, with the rounds of all their matches</caption>
";

/// From the table to the headings of the matches.
pub(crate) const MATCHES_START: &[u8] = b"<h2 id=\"matches\">Matches</h2>
<p>Rounds that the row won and lost against the column; the rest are ties. Blue is more won, orange more lost.</p>
<div class=\"scroll\" role=\"region\" aria-labelledby=\"matches\" tabindex=\"0\">
<table class=\"matches\">
<caption>Each row <span id=\"vs\">against</span> each column, by rank</caption>
";

/// What follows the last row of a table.
pub(crate) const TABLE_END: &[u8] = b"</table>
</div>
";

/// What follows the tables.
pub(crate) const END: &[u8] = b"</main>
</body>
</html>
";

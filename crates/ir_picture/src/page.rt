//! The page, but for its data. `python3 scripts/page.py` makes this file of page/view.html.

/// Part 1 of what comes before the data.
pub const HEAD_1: &str = "<!DOCTYPE html>
<html lang=\"en\">
<head>
<meta charset=\"utf-8\"><meta name=\"viewport\" content=\"width=device-width, initial-scale=1\">
<meta http-equiv=\"Content-Security-Policy\" content=\"default-src 'none'; style-src 'unsafe-inline'; script-src 'unsafe-inline'\">
<title>A recorded run</title>
<style>
:root {
  color-scheme: light dark;
  --page: #f6f7f9; --card: #ffffff; --ink: #1a1e24; --soft: #57606c; --line: #d5dae1; --lane: #eef1f5; --edge: #7a8494;
  --mark: #b3121b; --focus: #1f4fd8;
}
@media (prefers-color-scheme: dark) {
  :root {
    --page: #101317; --card: #181c22; --ink: #e8ebef; --soft: #a2acb8; --line: #323943; --lane: #1f242b; --edge: #77828f;
    --mark: #ff7a72; --focus: #8fb4ff;
  }
}
* { box-sizing: border-box; } html, body { height: 100%; margin: 0; }
body { display: flex; flex-direction: column; background: var(--page); color: var(--ink); }
body { font: 14px/1.45 system-ui, \"DejaVu Sans\", sans-serif; }
header { display: flex; flex-wrap: wrap; gap: 6px; align-items: center; padding: 8px 14px 6px; }
h1 { font-size: 16px; margin: 0 4px 0 0; font-weight: 650; } .grow { flex: 1; }
button, input {
  font: inherit; font-size: 13px; color: var(--ink); background: var(--card); border: 1px solid var(--edge);
  border-radius: 7px; padding: 3px 9px;
}
button { cursor: pointer; } input { width: 8em; } input[aria-invalid=\"true\"] { border-color: var(--mark); outline-color: var(--mark); }
input::placeholder { color: var(--soft); opacity: 1; }
button:hover { border-color: var(--ink); } :focus-visible { outline: 2px solid var(--focus); outline-offset: 1px; }
button[aria-pressed=\"true\"] { background: var(--ink); color: var(--page); border-color: var(--ink); }
button.bad { color: var(--mark); border-color: var(--mark); font-weight: 600; }
.chip { display: inline-flex; gap: 6px; align-items: center; border-radius: 999px; padding: 2px 10px 2px 6px; }
.chip i { width: 14px; height: 14px; border-radius: 4px; }
#legend { display: flex; gap: 6px; align-items: flex-start; padding: 0 14px 6px; color: var(--soft); font-size: 13px; }
#signs { display: flex; flex-wrap: wrap; gap: 6px; align-items: center; flex: 1; min-width: 0; max-height: 26px; overflow: hidden; }
#signs.open { max-height: none; } #signs > * { min-height: 26px; } #legend > button { padding: 2px 10px; }
#legend svg { vertical-align: -3px; } #legend span { margin-left: 8px; white-space: nowrap; line-height: 26px; }
#over, #scroll { background: var(--card); border: 1px solid var(--line); border-radius: 8px; margin: 0 14px; }
#over { display: block; width: calc(100% - 28px); margin-bottom: 8px; cursor: ew-resize; flex: none; }
#scroll { flex: 0 1 auto; min-height: 120px; overflow: hidden auto; }
#main { display: block; cursor: grab; touch-action: pan-y; } #main.drag { cursor: grabbing; }
#tip { position: fixed; display: none; white-space: pre; padding: 3px 8px; font-size: 12px; border-radius: 6px; }
#tip { pointer-events: none; background: var(--ink); color: var(--page); }
#info { display: grid; grid-template-columns: minmax(0, 1fr) auto; gap: 4px 24px; padding: 8px 14px; align-content: start; }
#info { flex: 1 0 clamp(124px, 22vh, 200px); overflow: auto; }
#info h2 { font-size: 15px; margin: 0 0 2px; font-weight: 650; } #info p { margin: 2px 0; }
.mark { color: var(--mark); } #info .mark { font-weight: 600; }
#info button.ev { padding: 0 7px; margin: 0 2px; font-size: 12.5px; }
#cmds { display: grid; grid-template-columns: auto auto auto auto; gap: 4px 10px; align-content: start; align-items: center; }
#cmds { font-size: 13px; color: var(--soft); }
code, kbd { font-family: ui-monospace, \"DejaVu Sans Mono\", monospace; font-size: 12.5px; color: var(--ink); }
";

/// Part 2 of what comes before the data.
pub const HEAD_2: &str =
    "kbd { border: 1px solid var(--line); border-bottom-width: 2px; border-radius: 4px; padding: 0 5px; }
dialog { color: var(--ink); background: var(--card); border: 1px solid var(--line); border-radius: 10px; max-width: 560px; }
dialog td { padding: 2px 12px 2px 0; vertical-align: top; } dialog td:first-child { white-space: nowrap; }
@media (max-width: 1100px) { h1 { font-size: 14px; } button, input { padding: 3px 6px; } }
@media (max-width: 760px) { #info { grid-template-columns: minmax(0, 1fr); flex-basis: clamp(124px, 28vh, 260px); } }
@media print { header button, header input, #legend > button, #tip { display: none; } #signs { max-height: none; } #info { flex: none; } }
</style>
</head>
<body>
<header>
  <h1 id=\"title\"></h1>
  <button id=\"bad\" class=\"bad\" hidden></button>
  <button id=\"stale\" class=\"bad\" hidden></button>
  <span class=\"grow\"></span>
  <input id=\"find\" placeholder=\"thread event\" title=\"a thread and an event, as 0 12; key G\" autocomplete=\"off\"
    aria-label=\"Show an event: its thread's number and its own\">
  <button id=\"spacing\" title=\"key L\">Spacing: even</button>
  <button id=\"whole\" title=\"key 0\">All</button>
  <button id=\"out\" title=\"key -\" aria-label=\"Farther\">&minus;</button>
  <button id=\"in\" title=\"key +\" aria-label=\"Nearer\">+</button>
  <button id=\"help\" title=\"key ?\">Keys</button>
</header>
<div id=\"legend\"><div id=\"signs\"></div><button id=\"more\" aria-expanded=\"false\" aria-controls=\"signs\" hidden>More</button></div>
<canvas id=\"over\" height=\"48\" role=\"img\" aria-label=\"The whole run, small. Drag to move.\"></canvas>
<div id=\"scroll\">
  <canvas id=\"main\" tabindex=\"0\" role=\"application\" aria-describedby=\"info\" aria-label=\"The run: a lane for each
    thread, time to the right. Arrow keys go from event to event; the text below says which it is.\"></canvas>
</div>
<section id=\"info\" aria-live=\"polite\"><div id=\"what\"></div><div id=\"cmds\"></div></section>
<div id=\"tip\"></div>
<dialog id=\"keys\" aria-label=\"Keys\">
  <table>
    <tr><td><kbd>&larr;</kbd> <kbd>&rarr;</kbd></td><td>the thread's event before, after</td></tr>
    <tr><td><kbd>&uarr;</kbd> <kbd>&darr;</kbd></td><td>the thread above, below, near the same place</td></tr>
    <tr><td><kbd>Home</kbd> <kbd>End</kbd></td><td>the thread's first, last event</td></tr>
    <tr data-if=\"bad\"><td><kbd>B</kbd></td><td>the last event of the next thread that ended badly</td></tr>
    <tr data-if=\"stale\"><td><kbd>N</kbd> <kbd>P</kbd></td><td>the next, the previous stale write</td></tr>
    <tr><td><kbd>M</kbd></td><td>the write that made the version which this event found</td></tr>
    <tr data-if=\"steps\"><td><kbd>C</kbd></td><td>copy the command that goes there in a session</td></tr>
    <tr><td><kbd>+</kbd> <kbd>-</kbd></td><td>nearer, farther; the wheel with Ctrl too</td></tr>
    <tr><td><kbd>0</kbd></td><td>all that the page has</td></tr>
    <tr data-if=\"spaced\"><td><kbd>L</kbd></td><td>events evenly spaced, or as wide as their steps</td></tr>
    <tr><td><kbd>G</kbd></td><td>type a thread and an event to show</td></tr>
    <tr><td><kbd>Esc</kbd></td><td>choose nothing</td></tr>
    <tr><td>click</td><td>a box: choose it; an object's name: only that object, and all again</td></tr>
    <tr><td>drag</td><td>the lanes, or the strip above them: move left and right</td></tr>
  </table>
  <p>Each event is right of all that it needs, and no further. That isn't its time<span data-if=\"plain\">, and not always an order that the
    run may have had</span>.</p>
  <p data-if=\"steps\">A box goes from entering to leaving, and what another thread had to leave ends left of what waited for it.</p>
  <form method=\"dialog\"><button>Close</button></form>
</dialog>
<script type=\"application/json\" id=\"run\">";

/// Part 1 of what comes after the data.
pub const TAIL_1: &str = "</script>
<script>
'use strict';
const el = id => document.getElementById(id);
const run = JSON.parse(el('run').textContent);
// Names of the guest, if a script has put them here (guest/ir-where --page): of threads, objects, words by \"object.word\", and where events come from
// by \"thread.event\". They may be any text, so they are text wherever they are shown.
const names = { threads: {}, objects: {}, words: {}, events: {}, ...(el('names') ? JSON.parse(el('names').textContent) : {}) };
const safe = s => String(s).replace(/[&<>\"']/g, c => `&#${c.charCodeAt(0)};`);
const called = (kind, key, before = ' ') => Object.hasOwn(names[kind], key) ? before + names[kind][key] : '';

// ---- the run -------------------------------------------------------------------------------------------------------
// A box is one event, or a fold of some that saw nothing new. x: places evenly spaced; u: by steps; came: where it would
// start if it needed no other thread; s0, s1: the positions before the step that enters and the one that leaves, or -1:
// a fold has neither. Rows: without the image all boxes are in row 0. A page may have a part of a run, the boxes around an event:
// then what a box needs may not be on the page.
const READ = 4, WRITE = 5, TRY = 6, KIND = ['', 'clock', 'random', 'input', 'read', 'write', 'try'];
const boxes = run.boxes.map((b, id) => ({
  id, t: b[0], i: b[1], n: b[2], k: b[3], o: b[4], v: b[5], r: b[6], x0: b[7], x1: b[8], u0: b[9], u1: b[10],
  came: b[11], row: b[12], s0: b[13], s1: b[14], again: b[15] || [], stale: [], fresh: true,
}));
const lanes = run.threads.map(() => []);
boxes.forEach(b => lanes[b.t].push(b));
const isShared = b => b.k >= READ, isEntry = b => b.n === 1 && (b.k === READ || b.k === WRITE);
const used = [...new Set(boxes.filter(isShared).map(b => b.o))].sort((a, b) => a - b);
const nth = new Map(used.map((o, k) => [o, k]));
const key = (o, v) => o * 4294967296 + v, made = new Map(), readers = new Map();
function addReader(o, v, b) {
  const l = readers.get(key(o, v));
  if (!l) readers.set(key(o, v), [b]); else if (l[l.length - 1] !== b) l.push(b);
}
for (const b of boxes) {
  if (b.k === WRITE) made.set(key(b.o, b.v), b);
  else if (b.n > 1 && b.k === READ) b.again.forEach(([o, v]) => addReader(o, v, b));
  else if (b.k === READ) addReader(b.o, b.v, b);
}
for (const l of lanes) {          // an arrow is drawn only to a thread's first entry at a version
  const last = new Map();
  for (const b of l) if (isEntry(b)) { b.fresh = last.get(b.o) !== b.v; last.set(b.o, b.v); }
}
function boxAt(t, e) {
  let a = 0, z = lanes[t].length - 1;
  while (a < z) { const m = (a + z + 1) >> 1; if (lanes[t][m].i <= e) a = m; else z = m - 1; }
  return lanes[t][a];
}
// How threads end, by the number of the end; a thread that ends by END with another code than 0 ended badly too.
const ENDS = ['', 'end', 'breakpoint', 'no instruction', 'misaligned jump', 'outside the code', 'bad load', 'bad store', 'unknown call',
  'no such object or word', 'entry out of order', 'not held', 'too much output', 'budget spent', 'too many events'];
const isBad = th => th.end !== 1 || th.code !== 0, endWords = th => th.end !== 1 ? ENDS[th.end] : th.code ? `code ${th.code}` : 'end';
const bads = run.threads.map((th, t) => t).filter(t => isBad(run.threads[t])), lastOf = t => lanes[t][lanes[t].length - 1];
const has = (b, e) => b && b.i <= e && e < b.i + b.n;
const part = run.around, spaced = boxes.some(b => b.u1 > b.u0);   // whether boxes are as wide as their steps
const maker = b => isEntry(b) ? made.get(key(b.o, b.v - 1)) : undefined;
const stales = run.stale.map(([t, i, j, word, was, is, way]) => ({ t, read: boxAt(t, i), box: boxAt(t, j), word, was, is, way }));
stales.sort((a, b) => a.box.x0 - b.box.x0 || a.t - b.t);
stales.forEach(s => s.box.stale.push(s));
function needsOf(b) {             // boxes of other threads that must end before b begins
  if (!isEntry(b)) return [];
  const m = maker(b), l = m && m.t !== b.t ? [m] : [];
  return b.k === WRITE ? l.concat((readers.get(key(b.o, b.v)) || []).filter(r => r.t !== b.t)) : l;
}
function seersOf(b) {             // entries of other threads at the version that b made
  if (b.k !== WRITE) return [];
  const w = made.get(key(b.o, b.v + 1)), l = (readers.get(key(b.o, b.v + 1)) || []).filter(r => r.t !== b.t && r.n === 1);
  return w && w.t !== b.t ? l.concat(w) : l;
}

function oversOf(b) {             // writes of other threads over what b read
  const l = b.k !== READ ? [] : b.n > 1 ? b.again : [[b.o, b.v]];
  return l.map(([o, v]) => made.get(key(o, v))).filter(w => w && w.t !== b.t);
}

// ---- places --------------------------------------------------------------------------------------------------------
const main = el('main'), over = el('over'), scroll = el('scroll'), g = main.getContext('2d'), og = over.getContext('2d');
const FACE = 'system-ui, \"DejaVu Sans\", sans-serif';
let css, W = 0, scale = 20, left = 0, steps = false, chosen = null, hover = null, only = -1, drag = null;
const rowsOf = lanes.map(l => 1 + l.reduce((m, b) => Math.max(m, b.row), 0));
// How high a row is, and what is above and below the rows of a lane: the first of these with which all lanes fit into the window.
// Those behind the first LOW are only for All; if it isn't asked for, lanes that don't fit are scrolled to.
const HEIGHTS = [[26, 15], [26, 11], [22, 9], [20, 7], [18, 5], [16, 3], [14, 2], [12, 2], [10, 1], [8, 1], [6, 1], [4, 0]], LOW = 8;
let GUT = 118, RH = 26, PAD = 15, BH = 22, tall = 0, laneTop = [], all = false;   // all: whether all is shown, and stays so in other sizes
const tallWith = ([h, pad]) => 12 + rowsOf.reduce((y, q) => y + q * h + 2 * pad, 0);
function layout() {               // of the lanes, in what is left of the window: whether all of them are in sight
  const below = scroll.getBoundingClientRect().top + scrollY, least = parseFloat(getComputedStyle(el('info')).flexBasis);
  const free = document.documentElement.clientHeight - below - least - 2;
  const some = all ? HEIGHTS : HEIGHTS.slice(0, LOW), found = some.find(h => tallWith(h) <= Math.max(free, 118)), used = found || some[some.length - 1];
  [RH, PAD] = used; BH = RH - (RH > 12 ? 4 : 2); tall = tallWith(used);
  laneTop = rowsOf.map((r, t) => 6 + rowsOf.slice(0, t).reduce((y, q) => y + q * RH + 2 * PAD, 0));
  main.style.height = tall + 'px'; W = scroll.clientWidth; GUT = W < 560 ? 80 : 118;
  return Boolean(found);
}
const X0 = b => steps ? b.u0 : b.x0, X1 = b => steps ? b.u1 : b.x1, endOf = th => steps ? th.u : th.x;
const least = f => boxes.reduce((m, b) => Math.min(m, f(b)), Infinity), most = f => boxes.reduce((m, b) => Math.max(m, f(b)), 0);
const edge = { x: part ? least(b => b.x0) : 0, u: part ? least(b => b.u0) : 0 };
const last = f => Math.max(2, ...run.threads.map(f));
const limit = { x: part ? most(b => b.x1) + 1 : last(th => th.x), u: part ? most(b => b.u1) + 1 : last(th => th.u) };
const start = () => steps ? edge.u : edge.x, span = () => (steps ? limit.u - edge.u : limit.x - edge.x) + 0.6;
const sx = x => GUT + 8 + (x - left) * scale, wide = b => Math.max((X1(b) - X0(b)) * scale, 3);
const yOf = b => laneTop[b.t] + PAD + b.row * RH + 2, midOf = b => yOf(b) + BH / 2;
const endSize = () => Math.min(11, Math.max(8, RH + 2 * PAD - 3));
const wordRoom = () => Math.max(56, ...run.threads.map(th => widthOf(endWords(th), endSize()) + 16));   // right of the last box
const room = () => W - GUT - Math.min(wordRoom(), (W - GUT) / 2);
function clamp() {
  const f = room() / span();
  scale = Math.min(Math.max(scale, Math.min(f, 60)), Math.max(140, f));
  left = Math.min(Math.max(left, start()), start() + Math.max(0, span() - room() / scale));
}

// ---- drawing -------------------------------------------------------------------------------------------------------
// fill, text on it, and lines on a light and on a dark page
const PAINT = [['#1f6fb4', '#fff', '#1f6fb4', '#5aa9ee'], ['#e08a00', '#1a1200', '#b26a00', '#ffb347'],
  ['#0b7f5a', '#fff', '#0b7f5a', '#3cc49a'], ['#8254be', '#fff', '#8254be', '#b891ee'],
  ['#4fb3e6', '#04202e', '#1f86bd', '#7cc9f0'], ['#d9c300', '#1d1a00', '#8a7a00', '#efdc3c'],
  ['#d171ab', '#2a0a1d', '#b14b88', '#e79ac6'], ['#7b6a58', '#fff', '#7b6a58', '#b09a84']];
const paint = o => PAINT[nth.get(o) % 8], stroke = o => paint(o)[css.dark ? 3 : 2];
const DIM = 0.15, PALE = 0.2;    // how much is left of what another object's button hides, and how strong a read is filled
const dim = b => only >= 0 && !(isShared(b) && (b.o === only || b.again.some(a => a[0] === only)));
function nameOf(b, o = b.o) {
  if (b.n > 1) return `${b.k === TRY ? 'tried' : 'read'} again \\u00d7${b.n}`;
";

/// Part 2 of what comes after the data.
pub const TAIL_2: &str = "  if (b.k === WRITE) return `write ${o} v${b.v}\\u2192${b.v + 1}`;
  return b.k === READ ? `read ${o} v${b.v}` : `${KIND[b.k]} ${o}`;
}
const longName = b => isShared(b) ? nameOf(b, called('objects', b.o, '') || b.o) : nameOf(b);
function text(s, x, y, colour, size = 11, align = 'left', weight = '') {
  g.font = `${weight} ${size}px ${FACE}`; g.textAlign = align; g.textBaseline = 'middle'; g.fillStyle = colour; g.fillText(s, x, y);
}
function widthOf(s, size) { g.font = `${size}px ${FACE}`; return g.measureText(s).width; }
function path(x, y, w, h, r) { g.beginPath(); g.roundRect(x, y, w, h, Math.min(r, w / 2, h / 2)); }
function outline(colour, width, dash = []) { g.strokeStyle = colour; g.lineWidth = width; g.setLineDash(dash); g.stroke(); g.setLineDash([]); }
function line(x, y, x2, y2, colour, width, dash) { g.beginPath(); g.moveTo(x, y); g.lineTo(x2, y2); outline(colour, width, dash); }
function triangle(a, b, c, d, e, f, colour) {
  g.beginPath(); g.moveTo(a, b); g.lineTo(c, d); g.lineTo(e, f); g.closePath(); g.fillStyle = colour; g.fill();
}

function drawBox(b) {
  const x = sx(X0(b)), y = yOf(b), w = wide(b), ring = b === chosen ? 2.5 : b === hover ? 1.2 : 0, alpha = dim(b) ? DIM : 1;
  g.globalAlpha = alpha;
  if (!isShared(b)) {
    g.beginPath(); g.arc(x + 2, midOf(b), 3.5, 0, 7); g.fillStyle = css.soft; g.fill(); g.globalAlpha = 1;
    if (ring) { path(x - 6, midOf(b) - 8, 16, 16, 8); outline(css.ink, ring); }
    return;
  }
  const [fill, on] = paint(b.o), write = b.k === WRITE;
  path(x, y, w, BH, write ? 2 : 9); g.fillStyle = css.card; g.fill();
  g.globalAlpha = write ? alpha : PALE * alpha; g.fillStyle = fill; g.fill(); g.globalAlpha = alpha;
  outline(write ? fill : stroke(b.o), 1.6, b.k === TRY || b.n > 1 ? [4, 3] : []);
  if (b.stale.length) outline(css.mark, 2.5);
  if (ring) { path(x - 3, y - 3, w + 6, BH + 6, 8); outline(css.ink, ring); }
  const size = RH > 18 ? 12 : 10, short = b.n > 1 ? `\\u00d7${b.n}` : b.k === TRY ? '\\u2715' : `v${b.v}`, digits = short.replace('v', '');
  const fits = [[longName(b), size, 10], [nameOf(b), size, 10], [short, size, 4], [digits, 10, 3], [digits, 8, 2]].find(([s, z, more]) => w > 12 && BH >= z && widthOf(s, z) + more < w);
  if (fits) text(fits[0], x + w / 2, midOf(b) + 0.5, write ? on : css.ink, fits[1], 'center');
  b.bare = !fits && isEntry(b);
  if (b.stale.length) badge(x + w, y); g.globalAlpha = 1;
}
function drawBelow(boxes) {       // versions that had no room in their boxes: below them, where that is free
  const ends = lanes.map(() => GUT);
  for (const b of boxes) {
    const size = PAD > 12 ? 10 : 9, s = `v${b.v}`, w = widthOf(s, size), a = sx(X0(b)) + (wide(b) - w) / 2, y = yOf(b) + BH + (PAD > 12 ? 4 : 2);
    if (!b.bare || PAD < 9 || b.row < rowsOf[b.t] - 1 || a < ends[b.t] + 4 || a + w > W) continue;
    ends[b.t] = a + w;
    g.globalAlpha = dim(b) ? DIM : 1; g.fillStyle = css.lane; g.fillRect(a - 1, y, w + 2, size + 1); text(s, a, y + size / 2 + 1, css.ink, size); g.globalAlpha = 1;
  }
}
function badge(x, y) {
  if (RH < 18) return triangle(x, y - 4, x + 5, y + 5, x - 5, y + 5, css.mark);
  triangle(x, y - 9, x + 8, y + 5, x - 8, y + 5, css.mark); outline(css.card, 1.5);
  text('!', x, y + 0.5, css.card, 10, 'center', 'bold');
}
function arrow(a, b, colour, width, dash, alpha) {
  const x = sx(X0(a)) + wide(a), y = midOf(a), x2 = sx(X0(b)), y2 = midOf(b), d = Math.min(Math.max(14, (x2 - x) / 2), 90);
  if (x2 < GUT - 40 || x > W + 40) return;
  g.globalAlpha = alpha;
  g.beginPath(); g.moveTo(x, y); g.bezierCurveTo(x + d, y, x2 - d - 4, y2, x2 - 5, y2); outline(colour, width, dash);
  triangle(x2 - 1, y2, x2 - 8, y2 - 4, x2 - 8, y2 + 4, colour); g.globalAlpha = 1;
}
function drawStale(s, width) {    // from the read to the write that rests on it
  const y = laneTop[s.t] + PAD + Math.min(s.read.row, s.box.row) * RH + 1, x = sx(X0(s.read)) + wide(s.read) - 5, x2 = sx(X0(s.box)) + 7;
  if (x2 < GUT || x > W) return;
  const up = Math.min(15, PAD + 6);
  g.beginPath(); g.moveTo(x, y); g.bezierCurveTo(x + 6, y - up, x2 - 6, y - up, x2, y); outline(css.mark, width, [5, 3]);
  const label = `read v${s.read.v}, now v${s.box.v}`, w = widthOf(label, 11), m = (x + x2) / 2;
  if (PAD > 12 && x2 - x > w + 30) { g.fillStyle = css.lane; g.fillRect(m - w / 2 - 4, y - 19, w + 8, 13); text(label, m, y - 12, css.mark, 11, 'center'); }
}
function drawLanes() {
  run.threads.forEach((th, t) => {
    const y = laneTop[t] + PAD + RH / 2, x = Math.min(Math.max(sx(endOf(th)), GUT), W);
    g.fillStyle = css.lane; g.fillRect(GUT, laneTop[t] + 2, W - GUT, rowsOf[t] * RH + 2 * PAD - 4);
    line(GUT, y, x, y, css.edge, 1);
  });
}
function drawEnds() {
  run.threads.forEach((th, t) => {
    const size = endSize(), x = sx(endOf(th)), y = laneTop[t] + PAD, word = endWords(th), w = widthOf(word, size), colour = isBad(th) ? css.mark : css.soft;
    if (x < GUT) return;
    g.fillStyle = css.lane; g.fillRect(x - 3, y, 6, RH - 2); g.fillStyle = colour; g.fillRect(x - 1.5, y, 3, RH - 2);
    if (x + 5 + w > W) return;
    g.fillStyle = css.lane; g.fillRect(x + 1.5, y + RH / 2 - size / 2 - 2, w + 7, size + 4);
    text(word, x + 5, y + RH / 2, colour, size);
  });
}
function cut(s, w) {              // a text, or as much of it as there is room for
  if (widthOf(s, 11) <= w) return s;
  let n = s.length;
  while (n > 1 && widthOf(s.slice(0, n) + '\\u2026', 11) > w) n--;
  return s.slice(0, n) + '\\u2026';
}
function drawGutter() {
  const x = GUT < 100 ? 6 : 12;
  g.fillStyle = css.card; g.fillRect(0, 0, GUT, tall);
  run.threads.forEach((th, t) => {
    const y = laneTop[t] + PAD + RH / 2, low = RH + 2 * PAD < 32, name = `thread ${t}`, events = called('threads', t, '') || many(th.events, 'event');
    if (!low) { text(name, x, y - 7, css.ink, 13, 'left', '600'); text(cut(events, GUT - x - 4), x, y + 8, css.soft); return; }
    const size = Math.min(13, Math.max(7, RH + 2 * PAD - 2)), w = widthOf(name, size) * 1.1;
    text(name, x, y, css.ink, size, 'left', '600');
    if (x + w + 6 + widthOf(events, size - 2) < GUT) text(events, GUT - 5, y, css.soft, size - 2, 'right');
  });
  line(GUT + 0.5, 0, GUT + 0.5, tall, css.line, 1);
}
function drawStrips(boxes) {      // far away: columns of 3 pixels, in the colour most entered, the taller the more is written
  const c0 = Math.floor(GUT / 3), cols = Math.ceil(W / 3) - c0, n = used.length;
  const count = new Uint32Array(lanes.length * cols * n), wrote = new Uint32Array(lanes.length * cols);
  for (const b of boxes) {
    if (!isShared(b) || dim(b)) continue;
    const a = Math.max(0, Math.floor(sx(X0(b)) / 3) - c0), z = Math.min(cols - 1, Math.floor((sx(X0(b)) + wide(b) - 1) / 3) - c0);
    for (let c = a; c <= z; c++) { const k = b.t * cols + c; count[k * n + nth.get(b.o)]++; if (b.k === WRITE) wrote[k]++; }
  }
  for (let k = 0; k < wrote.length; k++) {
    let best = 0, all = 0, o = 0;
    for (let q = 0; q < n; q++) { const m = count[k * n + q]; all += m; if (m > best) { best = m; o = q; } }
    if (!all) continue;
    const t = Math.floor(k / cols);
    const full = rowsOf[t] * RH - 2, tall = Math.max(3, full * (0.3 + 0.7 * wrote[k] / all));
    g.fillStyle = PAINT[o % 8][css.dark ? 3 : 2]; g.fillRect((k % cols + c0) * 3, laneTop[t] + PAD + (full - tall) / 2, 3, tall);
  }
  const last = lanes.map(() => -99);
  for (const s of stales) {
    const x = sx(X1(s.box)), y = laneTop[s.t] + PAD;
    if (x < GUT || x > W) continue;
    g.fillStyle = css.mark; g.fillRect(x - 1, y - 5, 2, 4);
    if (x - last[s.t] > 40) { badge(x, y - 4); last[s.t] = x; }
  }
}
function drawNear(boxes) {
  g.globalAlpha = 0.5;
  if (steps) for (const b of boxes) if (b.u0 > b.came) line(sx(b.came), midOf(b), sx(b.u0) - 2, midOf(b), css.soft, 5, [2, 5]);
  g.globalAlpha = 1;
  const dense = boxes.length > 260;
  for (const b of boxes) for (const a of needsOf(b)) {
    const sees = a.k === WRITE;
    if (a === chosen || b === chosen || (sees ? !b.fresh : dense)) continue;
    arrow(a, b, stroke(b.o), sees && !dense ? 1.6 : 1.1, sees ? [] : [2, 3], dim(b) ? DIM : 1);
  }
  boxes.forEach(drawBox); drawBelow(boxes);
  for (const s of stales) if (s.box !== chosen) drawStale(s, 1.5);
}
function drawChosen() {
  for (const a of needsOf(chosen)) arrow(a, chosen, css.ink, 2.2, a.k === WRITE ? [] : [3, 3], 1);
  for (const b of seersOf(chosen).slice(0, 200)) arrow(chosen, b, css.ink, 2.2, [], 1);
  for (const b of oversOf(chosen)) arrow(chosen, b, css.ink, 2.2, [3, 3], 1);
  drawBox(chosen);
  for (const s of chosen.stale) {
    drawStale(s, 2.2);
    const w = made.get(key(s.read.o, s.read.v));
";

/// Part 3 of what comes after the data.
pub const TAIL_3: &str =
    "    if (w) { path(sx(X0(w)) - 3, yOf(w) - 3, wide(w) + 6, BH + 6, 4); outline(css.mark, 2, [3, 2]); }
  }
}
function sharp(canvas, c, w, h) {
  const d = window.devicePixelRatio || 1, pw = Math.round(w * d), ph = Math.round(h * d);
  if (canvas.width !== pw || canvas.height !== ph) {
    canvas.width = pw; canvas.height = ph; canvas.style.height = h + 'px'; canvas.small = null;
  }
  c.setTransform(d, 0, 0, d, 0, 0); c.clearRect(0, 0, w, h);
  return d;
}
function draw() {
  sharp(main, g, W, tall); main.style.width = W + 'px';
  const a = left - 2, z = left + (W - GUT) / scale + 2, visible = boxes.filter(b => X1(b) >= a && X0(b) <= z);
  drawLanes();
  if (visible.length < 1500 && visible.length * 7 < (W - GUT) * lanes.length) drawNear(visible); else drawStrips(visible);
  if (chosen) drawChosen();
  drawEnds(); drawGutter(); drawOver();
}
const overLane = () => Math.max(2, Math.min(9, Math.min(64, innerHeight / 12) / lanes.length)), overTall = () => Math.round(overLane() * lanes.length + 8);
function drawOver() {
  const w = over.clientWidth, lh = overLane(), h = overTall(), f = (w - 8) / span();
  const d = sharp(over, og, w, h), is = [steps, only, css.card, w, h].join();
  if (!over.small || over.is !== is) {
    const c = document.createElement('canvas'), q = c.getContext('2d');
    c.width = over.width; c.height = over.height; q.scale(d, d);
    for (const b of boxes) {
      if (!isShared(b)) continue;
      const tall = b.k === WRITE ? lh - 1 : Math.max(1, (lh - 1) / 3);
      q.globalAlpha = dim(b) ? DIM : 1; q.fillStyle = stroke(b.o);
      q.fillRect(Math.floor(4 + (X0(b) - start()) * f), 4 + b.t * lh + (lh - 1 - tall) / 2, Math.max(1, Math.round((X1(b) - X0(b)) * f)), tall);
    }
    q.globalAlpha = 1; q.fillStyle = css.mark;
    for (const s of stales) q.fillRect(Math.floor(3 + (X0(s.box) - start()) * f), 3 + s.t * lh, 2, Math.max(2, lh / 2 - 1));
    over.small = c; over.is = is;
  }
  og.drawImage(over.small, 0, 0, w, h);
  og.strokeStyle = css.ink; og.lineWidth = 1.5;
  const at = Math.max(1, 3 + (left - start()) * f);
  og.strokeRect(at, 1, Math.min((W - GUT) / scale * f + 2, w - 1 - at), h - 2);
}

// ---- words ---------------------------------------------------------------------------------------------------------
const many = (n, w) => `${n} ${w}${n === 1 ? '' : 's'}`, total = run.threads.reduce((n, th) => n + th.events, 0);
const link = b => `<button class=\"ev\" data-box=\"${b.id}\">thread ${b.t} event ${b.i}</button>`;
const links = l => l.slice(0, 8).map(link).join('') + (l.length > 8 ? ` and ${l.length - 8} more` : '');
function origin(b) {              // where its first events come from, as far as that is known
  const l = Array.from({ length: Math.min(b.n, 4) }, (_, k) => called('events', `${b.t}.${b.i + k}`, '')).filter(s => s);
  return l.length ? `, ${safe(l.join(', '))}${b.n > 4 ? ', ..' : ''}` : '';
}
const ofObject = o => `object ${o}${safe(called('objects', o))}`;
function headline(b) {
  if (b.n > 1) return `events ${b.i} to ${b.i + b.n - 1}: ${b.n} ${b.k === TRY ? 'more refused tries' : 'more reads that find nothing new'}`;
  if (b.k === WRITE) return `event ${b.i}: writes ${ofObject(b.o)}, version ${b.v} to ${b.v + 1}`;
  if (b.k === READ) return `event ${b.i}: reads ${ofObject(b.o)} at version ${b.v}`;
  return `event ${b.i}: ` + (b.k === TRY ? `tries ${ofObject(b.o)}, and is refused` : `${KIND[b.k]} answers ${b.o}`);
}
function staleWords(s) {
  const more = s.box.v - s.read.v - 1, over = made.get(key(s.read.o, s.read.v)), would = s.way ? 'gone another way' : 'written something else';
  return `<p class=\"mark\">${run.steps ? 'A stale write' : 'It may be a stale write'}: its thread had read version ${s.read.v} at ${link(s.read)}, and ` +
    `${over ? link(over) : 'another thread'} wrote over that${more ? `; ${many(more, 'more write')} followed` : ''}.` +
    (s.word === undefined ? '' : ` Word ${s.word}${safe(called('words', `${s.read.o}.${s.word}`))} was ${s.was} and is ${s.is}: had it read that, it would have ${would}.`) + '</p>';
}
function tell() {
  const b = chosen;
  if (!b) {
    const more = stales.length ? 'N goes to the stale writes.' : 'No stale write was found.';
    const ends = bads.length ? `<p class=\"mark\">${bads.map(t => `Thread ${t}${safe(called('threads', t))} ended: ${endWords(run.threads[t])}.`).join(' ')}</p>` : '';
    el('what').innerHTML = `<h2>Nothing is chosen</h2><p>Click a box, or press an arrow key. ${more}</p>${ends}`; el('cmds').innerHTML = '';
    return;
  }
  let h = `<h2>thread ${b.t}${safe(called('threads', b.t))} ${headline(b)}${origin(b)}</h2>` + b.stale.map(staleWords).join('');
  if (b.n > 1 && b.k === READ) h += `<p>${b.again.slice(0, 6).map(([o, v]) => `Object ${o}${safe(called('objects', o))} was at version ${v}`).join('. ')}.</p>`;
  if (isEntry(b)) {
    const m = maker(b), rs = needsOf(b).filter(a => a.k !== WRITE), ss = seersOf(b), next = made.get(key(b.o, b.v));
    h += `<p>It sees ${m ? `what ${link(m)} wrote` : b.v ? `version ${b.v}, made outside of this part` : 'the first words'}.` +
      (rs.length ? ` These readers left before it: ${links(rs)}.` : '') + (ss.length ? ` Seen by ${links(ss)}.` : '') +
      (next && next !== b ? ` Written over by ${link(next)}.` : '') + '</p>';
  }
  if (b === lastOf(b.t) && isBad(run.threads[b.t]) && !part) h += `<p class=\"mark\">It is the last event of its thread, which ended: ${endWords(run.threads[b.t])}.</p>`;
  el('what').innerHTML = h;
  const inside = [[b.s0, 'before it enters'], [b.s0 + 1, 'after it entered']].concat(b.s1 < 0 ? [] : [[b.s1 + 1, 'after it left']]);
  const rows = b.s0 < 0 ? [] : isEntry(b) ? inside : [[b.s0, 'before'], [b.s1 + 1, 'after']];
  el('cmds').innerHTML = !run.steps ? '<span><code>ir events IMAGE TRACE</code> prints the positions of events.</span>' :
    rows.map(([s, w]) => `<code>goto ${b.t} ${s}</code><span>${w}</span><button data-copy=\"goto ${b.t} ${s}\">Copy</button>` +
      `<button data-copy=\"ir-goto ${b.t} ${s}\" title=\"the command of examples/ir.gdb\">Copy for gdb</button>`).join('');
}
function legend() {
  const pic = s => `<svg width=\"26\" height=\"16\" fill=\"none\" stroke=\"currentColor\" stroke-width=\"1.7\">${s}</svg>`;
  const head = '<path d=\"M24 8l-7-4v8z\" fill=\"currentColor\" stroke=\"none\"/>';
  const items = [['<rect x=\"2\" y=\"2\" width=\"22\" height=\"12\" rx=\"2\" fill=\"currentColor\"/>', 'entry for writing'],
    ['<rect x=\"2\" y=\"2\" width=\"22\" height=\"12\" rx=\"6\"/>', 'entry for reading'], [`<path d=\"M1 8H18\"/>${head}`, 'sees what was written'],
    [`<path d=\"M1 8H18\" stroke-dasharray=\"2 3\"/>${head}`, 'reader that left before the write']];
  const dull = '<rect x=\"2\" y=\"2\" width=\"22\" height=\"12\" rx=\"6\" stroke-dasharray=\"4 3\"/>';
  if (boxes.some(b => b.n > 1 || b.k === TRY)) items.push([dull, 'again, or refused']);
  if (steps) items.push(['<path d=\"M1 8H25\" stroke-width=\"5\" stroke-dasharray=\"2 4\"/>', 'waits']);
  el('signs').innerHTML = used.map(o => `<button class=\"chip\" data-object=\"${o}\" aria-pressed=\"${only === o}\">` +
    `<i style=\"background:${paint(o)[0]}\"></i>${used.length > 16 ? o : `object ${o}`}${safe(called('objects', o))}</button>`).join('') +
    items.map(([s, w]) => `<span>${pic(s)} ${w}</span>`).join('') +
    (stales.length ? `<span class=\"mark\">${pic('<path d=\"M13 1l8 13H5z\" fill=\"currentColor\"/>')} stale write</span>` : '');
}
function fold() {                 // the legend into its first row, if it doesn't fit there; More shows the rest
  const signs = el('signs'), more = el('more'), open = signs.classList.contains('open');
  more.hidden = true; signs.classList.remove('open');
  more.hidden = signs.scrollHeight < signs.clientHeight + 8;
  signs.classList.toggle('open', open && !more.hidden);
  more.textContent = open ? 'Less' : 'More'; more.setAttribute('aria-expanded', String(open));
}
function unfold() { el('signs').classList.toggle('open'); size(); }

// ---- moving --------------------------------------------------------------------------------------------------------
function choose(b, show) {
  chosen = b || null;
  history.replaceState(null, '', b ? `#${b.t}.${b.i}` : location.pathname + location.search);
  if (b && show) {
    if (!all && (sx(X0(b)) < GUT + 40 || sx(X1(b)) > W - 40)) left = X0(b) - room() / scale * 0.4;
    const y = laneTop[b.t], end = y + rowsOf[b.t] * RH + 2 * PAD;
    if (y < scroll.scrollTop || end > scroll.scrollTop + scroll.clientHeight) scroll.scrollTop = y;
  }
  clamp(); tell(); draw();
}
function zoom(f, px) { leaveAll(); const x = left + (px - GUT - 8) / scale; scale *= f; clamp(); left = x - (px - GUT - 8) / scale; clamp(); draw(); }
";

/// Part 4 of what comes after the data.
pub const TAIL_4: &str =
    "const middle = () => chosen ? Math.min(Math.max(sx(X0(chosen)), GUT), W) : (W + GUT) / 2;
const near = () => Math.max(30, widthOf(String(boxes.reduce((m, b) => Math.max(m, b.v), 0)), 10) + 6);   // boxes that have room for their versions
const fit = () => { scale = Math.min(room() / span(), 140); left = start(); };
function whole() { all = true; scroll.scrollTop = 0; size(); }
function leaveAll() { if (all) { all = false; layout(); } }   // from here on not all has to be in sight
function nextStale(d) {
  if (!stales.length) return;
  let k = chosen ? stales.findIndex(s => s.box === chosen) : -1;
  if (chosen && k < 0) { k = stales.findIndex(s => X0(s.box) > X0(chosen)); if (k < 0) k = stales.length; if (d > 0) k -= 1; }
  choose(stales[(k + d + 2 * stales.length) % stales.length].box, true);
}
function nextBad() {
  const there = bads.filter(t => lanes[t].length), at = chosen ? there.indexOf(chosen.t) : -1;
  if (there.length) choose(lastOf(there[(at + 1) % there.length]), true);
}
function along(d) {
  if (!chosen) return choose((lanes.find(l => l.length) || [])[0], true);
  const l = lanes[chosen.t];
  choose(l[Math.min(Math.max(l.indexOf(chosen) + d, 0), l.length - 1)], true);
}
function across(d) {
  if (!chosen) return along(1);
  const near = (a, b) => Math.abs(X0(b) - X0(chosen)) < Math.abs(X0(a) - X0(chosen)) ? b : a;
  for (let t = chosen.t + d; t >= 0 && t < lanes.length; t += d) if (lanes[t].length) return choose(lanes[t].reduce(near), true);
}
function spacing() {
  if (!spaced) return;
  const at = middle();
  steps = !steps; fit(); if (!all) scale = Math.max(scale, steps ? 0 : near());
  if (chosen && !all) left = X0(chosen) - (at - GUT) / scale;
  el('spacing').textContent = `Spacing: ${steps ? 'steps' : 'even'}`;
  legend(); size();
}
function copy(s, button) {
  const label = button && (button.dataset.label || button.textContent);
  const done = word => { if (button) { button.dataset.label = label; button.textContent = word; setTimeout(() => { button.textContent = label; }, 1500); } };
  if (navigator.clipboard) navigator.clipboard.writeText(s).then(() => done('Copied'), () => done('Not allowed'));
}
function find(t, e) {             // whether the page has event e of thread t; then it is chosen
  const b = lanes[t] && lanes[t].length ? boxAt(t, e) : null, found = Boolean(has(b, e));
  if (found) choose(b, true);
  return found;
}
const KEYS = {
  ArrowLeft: () => along(-1), ArrowRight: () => along(1), ArrowUp: () => across(-1), ArrowDown: () => across(1),
  Home: () => chosen && choose(lanes[chosen.t][0], true), End: () => chosen && choose(lanes[chosen.t][lanes[chosen.t].length - 1], true),
  b: nextBad, n: () => nextStale(1), p: () => nextStale(-1), m: () => chosen && maker(chosen) && choose(maker(chosen), true),
  c: () => chosen && run.steps && chosen.s0 >= 0 && copy(`goto ${chosen.t} ${chosen.s0}`), l: spacing, 0: whole, Escape: () => choose(null),
  '+': () => zoom(1.5, middle()), '=': () => zoom(1.5, middle()), '-': () => zoom(1 / 1.5, middle()),
  g: () => el('find').focus(), '?': () => el('keys').showModal(),
};
document.addEventListener('keydown', e => {
  if (e.ctrlKey || e.metaKey || e.altKey || e.target.tagName === 'INPUT' || el('keys').open) return;
  const f = KEYS[e.key] || KEYS[e.key.toLowerCase()];
  if (f) { f(); e.preventDefault(); }
});
function hit(e) {
  const r = main.getBoundingClientRect(), x = e.clientX - r.left, y = e.clientY - r.top;
  const t = laneTop.findIndex((q, k) => y >= q && y < q + rowsOf[k] * RH + 2 * PAD);
  let best = null, least = 9;
  for (const b of x < GUT || t < 0 ? [] : lanes[t]) {
    const a = sx(X0(b)), z = a + wide(b), off = Math.max(a - x, x - z, 0) + (Math.abs(y - midOf(b)) > RH / 2 ? 4 : 0);
    if (off < least) { least = off; best = b; }
  }
  return best;
}
main.addEventListener('pointerdown', e => {
  drag = { x: e.clientX, left, far: false }; main.setPointerCapture(e.pointerId); main.classList.add('drag');
});
main.addEventListener('pointermove', e => {
  if (drag) {
    drag.far = drag.far || Math.abs(e.clientX - drag.x) > 3;
    if (drag.far) { leaveAll(); left = drag.left - (e.clientX - drag.x) / scale; clamp(); draw(); }
    return;
  }
  const b = hit(e), tip = el('tip');
  if (b !== hover) { hover = b; draw(); }
  tip.style.display = b ? 'block' : 'none'; if (!b) return;
  const names = (isShared(b) ? called('objects', b.o, ', ') : '') + called('events', `${b.t}.${b.i}`, ', ');
  tip.textContent = `thread ${b.t} event ${b.i}: ${nameOf(b)}` + names + (run.steps && b.s0 >= 0 ? `\\ngoto ${b.t} ${b.s0}` : '');
  tip.style.left = Math.min(e.clientX + 14, innerWidth - 240) + 'px'; tip.style.top = e.clientY + 16 + 'px';
});
main.addEventListener('pointerup', e => { const d = drag; drag = null; main.classList.remove('drag'); if (d && !d.far) choose(hit(e)); });
main.addEventListener('pointerleave', () => { hover = null; el('tip').style.display = 'none'; draw(); });
main.addEventListener('wheel', e => {
  const pan = Math.abs(e.deltaX) > Math.abs(e.deltaY) || e.shiftKey;
  if (!pan && !e.ctrlKey && tall > scroll.clientHeight) return;
  e.preventDefault();
  if (pan) { leaveAll(); left += (e.deltaX || e.deltaY) / scale; clamp(); draw(); }
  else zoom(Math.exp(-e.deltaY * 0.0015), e.clientX - main.getBoundingClientRect().left);
}, { passive: false });
function seek(e) {
  const r = over.getBoundingClientRect();
  leaveAll(); left = start() + (e.clientX - r.left - 4) / (r.width - 8) * span() - room() / scale / 2; clamp(); draw();
}
over.addEventListener('pointerdown', e => { over.setPointerCapture(e.pointerId); seek(e); over.onpointermove = seek; });
over.addEventListener('pointerup', () => { over.onpointermove = null; });
document.addEventListener('click', e => {
  const at = q => e.target.closest(`[data-${q}]`), b = at('box'), c = at('copy'), o = at('object');
  if (b) { choose(boxes[+b.dataset.box], true); main.focus(); }
  if (c) copy(c.dataset.copy, c);
  if (o) { only = only === +o.dataset.object ? -1 : +o.dataset.object; legend(); fold(); draw(); }
});
for (const [id, k] of [['whole', 0], ['spacing', 'l'], ['help', '?'], ['bad', 'b'], ['stale', 'n'], ['in', '+'], ['out', '-']]) el(id).onclick = KEYS[k];
el('more').onclick = unfold;
el('find').addEventListener('keydown', e => {
  if (e.key === 'Escape') main.focus();
  if (e.key !== 'Enter') return;
  const m = e.target.value.match(/^\\D*(\\d+)\\D+(\\d+)\\D*$/), found = Boolean(m) && find(+m[1], +m[2]);
  e.target.setAttribute('aria-invalid', String(!found));
  if (found) main.focus();
});

// ---- the start -----------------------------------------------------------------------------------------------------
function theme() {
  const c = getComputedStyle(document.documentElement);
  css = { dark: matchMedia('(prefers-color-scheme: dark)').matches };
  for (const n of ['page', 'card', 'ink', 'soft', 'line', 'lane', 'edge', 'mark']) css[n] = c.getPropertyValue('--' + n).trim();
}
function size() {
  const first = !W;
  over.style.height = overTall() + 'px'; fold();
  const inSight = layout();
  if (all || first) fit();
  if (first) { all = inSight && scale >= near(); scale = Math.max(scale, near()); }
  clamp(); draw();
}
el('title').textContent = [many(lanes.length, 'thread'), many(run.objects, 'object'), many(total, 'event')].join(', ') +
  (part ? `; the part around event ${part[1]} of thread ${part[0]}` : '');
document.title = `Run: ${el('title').textContent}`;
document.querySelectorAll('[data-if]').forEach(r => { r.hidden = !{ steps: run.steps, plain: !run.steps, spaced, bad: bads.length, stale: stales.length }[r.dataset.if]; });
el('bad').hidden = !bads.length;
el('bad').textContent = bads.length === 1 ? `thread ${bads[0]}: ${endWords(run.threads[bads[0]])}` : `${bads.length} threads ended badly`;
el('stale').hidden = !stales.length;
el('stale').textContent = `\\u26a0 ${many(stales.length, run.steps ? 'stale write' : 'possible stale write')}`;
el('spacing').hidden = !spaced;
theme(); legend(); size(); tell();
const wanted = location.hash.match(/^#(\\d+)\\.(\\d+)/);
if (location.hash === '#all') whole();
else if (!(wanted && find(+wanted[1], +wanted[2]))) {
  const bad = bads.find(t => lanes[t].length);
  choose(part ? boxAt(part[0], part[1]) : stales.length ? stales[0].box : bad === undefined ? null : lastOf(bad), true);
}
addEventListener('hashchange', () => {
  const m = location.hash.match(/^#(\\d+)\\.(\\d+)/);
  if (m) find(+m[1], +m[2]); else if (location.hash === '#all') whole();
});
matchMedia('(prefers-color-scheme: dark)').addEventListener('change', () => { theme(); draw(); });
new ResizeObserver(() => requestAnimationFrame(size)).observe(scroll); addEventListener('resize', size);
</script>
</body>
</html>
";

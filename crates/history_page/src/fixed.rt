// The fixed parts of a page. Made by launcher/make_page from crates/history_page/page/page.html: edit that file, and not this.

/// What stands before the calls.
pub(crate) const HEAD: &str = r##"<!DOCTYPE html>
<html lang="en">
<head>
<meta charset="utf-8">
<meta http-equiv="Content-Security-Policy" content="default-src 'none'; style-src 'unsafe-inline'; script-src 'unsafe-inline'">
<meta name="viewport" content="width=device-width, initial-scale=1">
<title>kangaroo judge</title>
<style>
:root {
  color-scheme: light dark;
  --back: #ffffff; --panel: #f4f5f7; --line: #d5d8de; --faint: #eceef2; --text: #1b1e24; --soft: #5b6270;
  --put: #2f6fb5; --hit: #4c8f4a; --miss: #b9bec8; --remove: #8a5a9e; --fault: #c1271b; --band: #fdeceb; --key: #e0a100;
}
@media (prefers-color-scheme: dark) {
  :root {
    --back: #14161a; --panel: #1c1f25; --line: #3a3f49; --faint: #23272e; --text: #e6e8ec; --soft: #a0a7b4;
    --put: #6aa5e6; --hit: #79bf77; --miss: #5a606c; --remove: #c193d8; --fault: #ff7b6e; --band: #3a1f1d; --key: #f0c24b;
  }
}
* { box-sizing: border-box; }
html, body { height: 100%; margin: 0; }
body { display: flex; flex-direction: column; background: var(--back); color: var(--text); font: 14px/1.4 system-ui, sans-serif; }
header { padding: 8px 12px; border-bottom: 1px solid var(--line); background: var(--panel); }
h1 { margin: 0; font: 600 15px/1.4 ui-monospace, monospace; overflow-wrap: anywhere; }
h2 { margin: 0 0 4px; font-size: 13px; }
#said { margin: 2px 0 0; color: var(--soft); white-space: pre-line; overflow-wrap: anywhere; }
#bar { display: flex; flex-wrap: wrap; gap: 6px 10px; align-items: center; margin-top: 8px; }
button, input { font: inherit; color: inherit; background: var(--back); border: 1px solid var(--line); border-radius: 4px; padding: 2px 8px; }
button { cursor: pointer; }
button:focus-visible, input:focus-visible, canvas:focus-visible { outline: 2px solid var(--put); outline-offset: 1px; }
input { width: 22em; font-family: ui-monospace, monospace; }
.sign { display: inline-block; width: 10px; height: 10px; margin: 0 4px 0 8px; border-radius: 2px; }
main { flex: 1; display: flex; min-height: 0; }
#draw { flex: 1; min-width: 0; display: flex; flex-direction: column; }
canvas { display: block; width: 100%; }
#all { height: 36px; border-bottom: 1px solid var(--line); cursor: pointer; }
#calls { flex: 1; min-height: 0; cursor: grab; touch-action: none; }
#calls.moved { cursor: grabbing; }
aside { width: 420px; max-width: 45%; display: flex; flex-direction: column; border-left: 1px solid var(--line); background: var(--panel); }
section { overflow: auto; padding: 10px 12px; }
#faults { flex: 0 1 auto; max-height: 45%; border-bottom: 1px solid var(--line); }
#chosen { flex: 1 1 0; min-height: 0; }
#list { list-style: none; margin: 0; padding: 0; }
#list button { display: block; width: 100%; text-align: left; margin: 0 0 4px; font: 12px/1.35 ui-monospace, monospace; overflow-wrap: anywhere; }
#list button[aria-current=true] { border-color: var(--fault); background: var(--band); }
#sentence, #one { overflow-wrap: anywhere; }
#one { font: 12px/1.45 ui-monospace, monospace; white-space: pre-wrap; margin: 0 0 4px; }
#rows { overflow-x: auto; }
table { border-collapse: collapse; font: 12px/1.4 ui-monospace, monospace; margin-top: 6px; }
th, td { text-align: left; vertical-align: top; padding: 1px 9px 1px 0; white-space: nowrap; }
td.call { white-space: normal; overflow-wrap: anywhere; min-width: 12em; }
th.number, td.number { text-align: right; }
#tip { position: fixed; z-index: 2; display: none; pointer-events: none; max-width: 60ch; background: var(--panel); border: 1px solid var(--line); border-radius: 4px; padding: 3px 7px; font: 12px/1.4 ui-monospace, monospace; white-space: pre-wrap; overflow-wrap: anywhere; }
noscript { display: block; padding: 12px; }
@media (max-width: 700px) { main { flex-direction: column; } aside { width: auto; max-width: none; height: 45%; border-left: 0; border-top: 1px solid var(--line); } }
</style>
</head>
<body>
<header>
<h1 id="verdict">kangaroo judge</h1>
<p id="said"></p>
<div id="bar">
<label>Keys <input id="filter" type="search" spellcheck="false" placeholder="part of a key, or a whole key" autocomplete="off"></label>
<span id="count" role="status"></span>
<button id="in" title="Zoom in: +">Zoom in</button>
<button id="out" title="Zoom out: -">Zoom out</button>
<button id="fit" title="Show all calls: 0">All</button>
<button id="order" aria-pressed="false" title="A column for each stamp, in their order: o">By order</button>
<span><span class="sign" style="background:var(--put)"></span>put<span class="sign" style="background:var(--hit)"></span>hit<span class="sign" style="background:var(--miss)"></span>miss<span class="sign" style="background:var(--remove)"></span>remove<span class="sign" style="background:var(--fault)"></span>call of the fault</span>
</div>
</header>
<noscript>This page draws by a script, and this browser runs none. The calls and the faults stand as text in the file.</noscript>
<main>
<div id="draw">
<canvas id="all" aria-hidden="true"></canvas>
<canvas id="calls" tabindex="0" role="application" aria-label="The calls over time, a row for each caller. Arrow keys scroll, plus and minus zoom, 0 shows all, n and p go to the next and to the previous fault."></canvas>
</div>
<aside>
<section id="faults" aria-label="Faults">
<h2 id="many"></h2>
<ul id="list"></ul>
<button id="more" hidden></button>
</section>
<section id="chosen" aria-live="polite">
<h2 id="what">No call is chosen</h2>
<p id="sentence">Click on a call or on a fault. The wheel zooms at the pointer, and dragging scrolls.</p>
<pre id="one"></pre>
<button id="only" hidden>Show only this key</button>
<div id="rows"></div>
</section>
</aside>
</main>
<div id="tip"></div>
<script type="text/plain" id="call-lines">
"##;

/// What stands between the calls and the report.
pub(crate) const MIDDLE: &str = r##"</script>
<script type="text/plain" id="report-lines">
"##;

/// What stands after the report.
pub(crate) const TAIL: &str = r##"</script>
<script>
"use strict";
const began = performance.now();
const at = id => document.getElementById(id);
// What stands in the file has the code %3C for the sign that begins a tag. No word has that code otherwise.
const lines_in = id => at(id).textContent.replaceAll("%3C", "\u003c");

// Reading the calls. Each line is: LINE CALLER START END put KEY VALUE [EXPIRES], or the same with hit [MOMENT], miss or remove.
// A plus before LINE marks a put that was not recorded: its value was there from the start. A stamp has up to 20 digits, so it is
// read as two numbers, of its digits before the last ten and of these.
const text = lines_in("call-lines");
const from = text.charCodeAt(0) === 10 ? 1 : 0;
const KINDS = ["put", "hit", "miss", "remove"];
// In the place of a caller, of puts that were not recorded. It is no word, so no caller has that name.
const UNRECORDED = "was there";
let total = 0;
for (let i = from; (i = text.indexOf("\n", i)) >= 0; i++) total++;
const place = new Float64Array(total), line_of = new Float64Array(total), added = new Uint8Array(total);
const caller = new Int32Array(total), kind = new Uint8Array(total), key_of = new Int32Array(total);
const start = new Float64Array(total), end = new Float64Array(total);
const callers = [], caller_numbers = new Map(), keys = [], key_numbers = new Map(), at_line = new Map();
let base = 0n, zero = 0, earliest = Infinity;

function number_of(numbers, names, name) {
  let number = numbers.get(name);
  if (number === undefined) { number = names.length; numbers.set(name, number); names.push(name); }
  return number;
}

function digits(from, to) {
  let number = 0;
  for (let i = from; i < to; i++) number = number * 10 + text.charCodeAt(i) - 48;
  return number;
}

// A call whose times are both 0 tells what was there before the others.
function is_before(n) { return total > 1 && start[n] === zero && end[n] <= zero; }

(function read() {
  const high = new Float64Array(2 * total), low = new Float64Array(2 * total);
  const stamp = (index, from, to) => {
    const cut = Math.max(from, to - 10);
    high[index] = digits(from, cut);
    low[index] = digits(cut, to);
  };
  let i = from;
  for (let n = 0; n < total; n++) {
    place[n] = i;
    if (text.charCodeAt(i) === 43) { added[n] = 1; i++; }
    let to = text.indexOf(" ", i);
    line_of[n] = digits(i, to);
    i = to + 1;
    to = text.indexOf(" ", i);
    caller[n] = number_of(caller_numbers, callers, added[n] ? UNRECORDED : text.slice(i, to));
    i = to + 1;
    to = text.indexOf(" ", i);
    stamp(2 * n, i, to);
    i = to + 1;
    to = text.indexOf(" ", i);
    if (text.charCodeAt(i) === 45) high[2 * n + 1] = Infinity; else stamp(2 * n + 1, i, to);
    i = to + 1;
    to = text.indexOf(" ", i);
    kind[n] = KINDS.indexOf(text.slice(i, to));
    i = to + 1;
    const feed = text.indexOf("\n", i);
    to = text.indexOf(" ", i);
    if (to < 0 || to > feed) to = feed;
    key_of[n] = number_of(key_numbers, keys, text.slice(i, to));
    i = feed + 1;
    const calls = at_line.get(line_of[n]);
    if (calls) calls.push(n); else at_line.set(line_of[n], [n]);
  }
  // Times are counted from the start of a middle call, so that they are exact within 2^53 of it.
  const middle = total >> 1;
  let base_high = 0, base_low = 0;
  if (total) {
    const rough = Float64Array.from({ length: total }, (_, n) => high[2 * n] * 1e10 + low[2 * n]).sort();
    for (let n = 0; n < total; n++) if (high[2 * n] * 1e10 + low[2 * n] === rough[middle]) { base_high = high[2 * n]; base_low = low[2 * n]; break; }
  }
  base = BigInt(base_high) * 10000000000n + BigInt(base_low);
  zero = Number(-base);
  for (let n = 0; n < total; n++) {
    start[n] = (high[2 * n] - base_high) * 1e10 + (low[2 * n] - base_low);
    end[n] = (high[2 * n + 1] - base_high) * 1e10 + (low[2 * n + 1] - base_low);
    // one that ends before it starts is drawn from its end to its start
    if (end[n] < start[n]) [start[n], end[n]] = [end[n], start[n]];
    if (start[n] < earliest && !is_before(n)) earliest = start[n];
  }
})();

function line_text(call) { return text.slice(place[call], text.indexOf("\n", place[call])); }

const cut = (word, most) => word.length > most ? word.slice(0, most - 2) + ".." : word;
const many = (count, word) => count.toLocaleString("en") + " " + word + (count === 1 ? "" : "s");

// What a call's line has: its words, with the stamps as they are written.
function told(call) {
  const words = line_text(call).split(" ");
  return { line: words[0].replace("+", ""), caller: added[call] ? UNRECORDED : words[1], start: words[2], end: words[3], act: words[4], key: words[5], value: words[6] || "", time: words[7] || "" };
}

// A stamp, counted from the first start, as on the ruler.
if (earliest === Infinity) earliest = 0;
const origin = base + BigInt(earliest);
function since(stamp) {
  if (stamp === "-") return "-";
  const time = BigInt(stamp) - origin;
  return (time > 0n ? "+" : "") + time.toLocaleString("en");
}

function lasted(call) {
  if (call.end === "-") return "never returned";
  const time = BigInt(call.end) - BigInt(call.start);
  return time < 0n ? "ends " + -time + " before it starts" : "took " + time;
}

// Reading the report: lines of the verdict, then for each fault the line of --all and its sentence.
const faults = [], verdict = [];
(function read_report() {
  const said = lines_in("report-lines").split("\n").filter(line => line);
  for (let i = 0; i < said.length; i++) {
    const words = /^fault (\S+) key (\S+) lines((?: \d+)*)(?: late (\d+))?(.*)$/.exec(said[i]);
    if (!words) { verdict.push(said[i]); continue; }
    const calls = words[3].trim().split(" ").filter(word => word).flatMap(word => at_line.get(Number(word)) || []);
    faults.push({ said: said[i].slice(6), kind: words[1], key: words[2], lines: words[3].trim(), late: words[4], more: words[5].replace(/^, /, ""), sentence: said[++i] || "", calls });
  }
})();

// What is shown: the calls of the keys that are chosen, in lanes. A caller's row has as many lanes as it has calls at once. Beside
// each call of a lane stands how far it and those before it reach, so that what is in view is found by halving.
const canvas = at("calls"), pen = canvas.getContext("2d"), whole = at("all"), whole_pen = whole.getContext("2d");
const LOW = 16, TALL = 24, GAP = 6, RULER = 22, NAMES = 120, LEAST = 3, MOST_LANES = 60;
let left = new Float64Array(total), right = new Float64Array(total), stamps = null;
let LANE = LOW, rows = [], height = 0, shown_count = 0, first = 0, last = 1, is_shown = null;
let view = { from: 0, span: 1, top: 0 }, by_order = false;
let marked = new Set(), chosen = -1, chosen_fault = -1;
let lane_of = new Int32Array(total), row_at = new Map();

function keys_like(word) {
  if (!word) return null;
  if (key_numbers.has(word)) return new Set([key_numbers.get(word)]);
  const like = new Set();
  keys.forEach((key, number) => { if (key.includes(word)) like.add(number); });
  return like;
}

function lay_out() {
  const wanted = keys_like(at("filter").value.trim());
  is_shown = new Uint8Array(total);
  shown_count = 0;
  const seen_keys = new Set();
  const order = [];
  for (let n = 0; n < total; n++) {
    if (wanted && !wanted.has(key_of[n])) continue;
    is_shown[n] = 1;
    shown_count++;
    seen_keys.add(key_of[n]);
    order.push(n);
  }
  order.sort((a, b) => start[a] - start[b] || end[a] - end[b]);
  place_columns(order);
  const of_caller = new Map();
  for (const n of order) {
    if (!of_caller.has(caller[n])) of_caller.set(caller[n], []);
    of_caller.get(caller[n]).push(n);
  }
  rows = [];
  row_at = new Map();
  for (const [number, calls] of of_caller) {
    const row = { number, y: 0, size: 0, lanes: lanes_of(calls) };
    rows.push(row);
    row_at.set(number, row);
  }
  // lanes are taller if all have room then
  const lanes = rows.reduce((sum, row) => sum + row.lanes.length, 0);
  LANE = lanes * TALL + rows.length * GAP + GAP < canvas.clientHeight - RULER ? TALL : LOW;
  for (const row of rows) row.size = row.lanes.length * LANE + GAP;
  stack();
  spans();
  at("count").textContent = shown_count === total
    ? `${many(total, "call")}, ${many(callers.length, "caller")}, ${many(keys.length, "key")}`
    : `${shown_count.toLocaleString("en")} of ${many(total, "call")}, ${many(seen_keys.size, "key")}`;
  sum_up(order);
}

// The lanes of a caller's calls, which are given by their starts. What has no room in sixty lanes lies over others in the last one.
function lanes_of(calls) {
  const lanes = [], ends = [];
  for (const n of calls) {
    let lane = 0;
    while (lane < lanes.length && ends[lane] > start[n]) lane++;
    if (lane === MOST_LANES) lane--;
    else if (lane === lanes.length) { lanes.push({ calls: [], reach: [] }); ends.push(-Infinity); }
    ends[lane] = Math.max(ends[lane], end[n]);
    lanes[lane].calls.push(n);
    lanes[lane].reach.push(Math.max(lanes[lane].reach.at(-1) ?? -Infinity, right[n]));
    lane_of[n] = lane;
  }
  return lanes;
}

// Where the rows stand: those with calls of the chosen fault on top, and else as the callers first appear.
function stack() {
  const on_top = new Set([...marked].map(n => caller[n]));
  rows.sort((a, b) => on_top.has(b.number) - on_top.has(a.number) || a.number - b.number);
  let y = GAP;
  for (const row of rows) { row.y = y; y += row.size; }
  height = y;
}
const y_of = n => row_at.get(caller[n]).y + lane_of[n] * LANE;

// The columns of the calls: to scale, or one for each stamp that is shown.
function place_columns(order) {
  if (!by_order) { left = start; right = end; stamps = null; return; }
  const all = new Float64Array(order.length * 2);
  let many = 0;
  for (const n of order) { all[many++] = start[n]; if (end[n] < Infinity) all[many++] = end[n]; }
  const sorted = all.slice(0, many).sort();
  const distinct = sorted.filter((stamp, i) => i === 0 || stamp !== sorted[i - 1]);
  stamps = distinct;
  left = new Float64Array(total);
  right = new Float64Array(total);
  for (const n of order) { left[n] = rank(start[n]); right[n] = end[n] < Infinity ? rank(end[n]) : Infinity; }
}

function rank(stamp) {
  let low = 0, high = stamps.length;
  while (low < high) { const middle = (low + high) >> 1; if (stamps[middle] < stamp) low = middle + 1; else high = middle; }
  return low;
}

// From where to where there are calls. Those of what was there before don't widen the view.
function spans() {
  first = Infinity;
  last = -Infinity;
  for (const row of rows) for (const lane of row.lanes) for (const n of lane.calls) {
    if (is_before(n)) continue;
    if (left[n] < first) first = left[n];
    const to = right[n] < Infinity ? right[n] : left[n];
    if (to > last) last = to;
  }
  if (first > last) { first = 0; last = 1; }
  if (last === first) last = first + 1;
}

// How many calls there are at each place, for the strip above.
let strip = null, strip_most = 1;
function sum_up(order) {
  strip = new Float64Array(600);
  const step = (last - first) / strip.length;
  for (const n of order) {
    const from = Math.max(0, Math.floor((left[n] - first) / step));
    if (from < strip.length) strip[from]++;
  }
  strip_most = Math.max(1, ...strip);
  strip_picture = null;
}

// Drawing.
let colours = {}, wide = 0, high = 0, is_due = false;
function colours_now() {
  const style = getComputedStyle(document.documentElement);
  for (const name of ["back", "panel", "line", "faint", "text", "soft", "put", "hit", "miss", "remove", "fault", "band", "key"]) colours[name] = style.getPropertyValue("--" + name).trim();
}
function sized(canvas, pen) {
  const ratio = window.devicePixelRatio || 1, box = canvas.getBoundingClientRect();
  const w = Math.max(1, Math.round(box.width * ratio)), h = Math.max(1, Math.round(box.height * ratio));
  if (canvas.width !== w || canvas.height !== h) { canvas.width = w; canvas.height = h; }
  pen.setTransform(ratio, 0, 0, ratio, 0, 0);
  return [box.width, box.height];
}
const across = x => NAMES + (x - view.from) / view.span * (wide - NAMES);
const back_across = px => view.from + (px - NAMES) / (wide - NAMES) * view.span;
function due() { if (!is_due) { is_due = true; requestAnimationFrame(() => { is_due = false; draw(); }); } }

// The first call of a lane, from this one on, that reaches so far.
function after(lane, from, x) {
  let low = from, high = lane.reach.length;
  while (low < high) { const middle = (low + high) >> 1; if (lane.reach[middle] < x) low = middle + 1; else high = middle; }
  return low;
}

function draw() {
  [wide, high] = sized(canvas, pen);
  pen.fillStyle = colours.back;
  pen.fillRect(0, 0, wide, high);
  pen.font = "11px ui-monospace, monospace";
  pen.textBaseline = "middle";
  const to_x = view.from + view.span;
  pen.save();
  pen.beginPath();
  pen.rect(0, RULER, wide, high - RULER);
  pen.clip();
  for (let i = 0; i < rows.length; i++) {
    const row = rows[i], y = row.y + RULER - view.top;
    if (y + row.size < RULER || y > high) continue;
    if (i % 2) { pen.fillStyle = colours.faint; pen.fillRect(0, y - GAP / 2, wide, row.size); }
    row.lanes.forEach((lane, number) => draw_lane(lane, y + number * LANE, to_x));
  }
  draw_marked();
  draw_names();
  pen.restore();
  draw_ruler(to_x);
  draw_strip();
}

// Draws the calls of a lane that are in view. Narrow ones of one kind that touch are one bar. After a call that ends on the pixel that it
// begins on, those that reach no further are passed over: so a lane costs what its pixels cost, however many calls it has.
function draw_lane(lane, y, to_x) {
  const scale = (wide - NAMES) / view.span, calls = lane.calls;
  let run_from = 0, run_to = 0, run_kind = -1;
  const flush = () => {
    if (run_kind < 0) return;
    pen.fillStyle = colours[KINDS[run_kind]];
    pen.fillRect(run_from, y, Math.max(run_to - run_from, LEAST), LANE - 3);
    run_kind = -1;
  };
  let i = after(lane, 0, view.from);
  while (i < calls.length && left[calls[i]] <= to_x) {
    const n = calls[i];
    const from = Math.max(NAMES - 4, NAMES + (left[n] - view.from) * scale);
    const to = Math.max(from, Math.min(wide + 4, NAMES + (right[n] - view.from) * scale));
    if (kind[n] !== run_kind || from - run_to > 1 || to - from >= 14) { flush(); run_from = from; run_to = to; run_kind = kind[n]; }
    else run_to = Math.max(run_to, to);
    if (to - from >= 14) { flush(); draw_call(n, from, to, y); }
    i = to - from < 1 ? Math.max(i + 1, after(lane, i, view.from + (Math.floor(from) + 1 - NAMES) / scale)) : i + 1;
  }
  flush();
}

// A call that is wide enough has its edges and its words.
function draw_call(n, from, to, y) {
  pen.strokeStyle = colours.back;
  pen.lineWidth = 1;
  pen.strokeRect(from + 0.5, y + 0.5, to - from - 1, LANE - 4);
  if (to - from < 34) return;
  const call = told(n);
  pen.save();
  pen.beginPath();
  pen.rect(from + 3, y, to - from - 6, LANE);
  pen.clip();
  pen.fillStyle = call.act === "miss" ? colours.text : colours.back;
  pen.fillText(`${call.act} ${call.key} ${call.value}`, from + 4, y + (LANE - 3) / 2 + 0.5);
  pen.restore();
}

// The calls of the chosen fault, and the chosen call, stand above the others.
function draw_marked() {
  const labels = [];
  for (const n of [...marked, ...(chosen >= 0 && !marked.has(chosen) ? [chosen] : [])]) {
    if (!is_shown[n]) continue;
    const y = y_of(n) + RULER - view.top;
    let from = across(left[n]), to = Math.max(from + LEAST, Math.min(wide + 4, across(right[n])));
    const is_before = to < NAMES;
    if (from > wide) continue;
    if (is_before) { from = NAMES + 1; to = from + LEAST; }
    from = Math.max(from, NAMES - 4);
    pen.fillStyle = marked.has(n) ? colours.fault : colours.key;
    pen.globalAlpha = 0.25;
    if (!is_before) { pen.fillRect(from, RULER, 1, high); pen.fillRect(to - 1, RULER, 1, high); }
    pen.globalAlpha = 1;
    pen.fillRect(from, y, to - from, LANE - 3);
    pen.strokeStyle = n === chosen ? colours.key : colours.fault;
    pen.lineWidth = n === chosen ? 3 : 1;
    pen.strokeRect(from - 1.5, y - 1.5, to - from + 3, LANE);
    labels.push({ n, from, to, y, is_before });
  }
  const used = [];
  for (const label of labels.slice(0, 60)) {
    const call = told(label.n);
    const words = [label.is_before ? "\u25c2" : "", call.act, cut(call.value, 24), `(line ${call.line})`].filter(word => word).join(" ");
    const size = pen.measureText(words).width + 8;
    let x = label.to + 4;
    if (x + size > wide) x = Math.max(NAMES, label.from - size - 4);
    let y = label.y;
    while (used.some(other => x < other.x + other.size && other.x < x + size && Math.abs(other.y - y) < LANE - 2)) y += LANE - 2;
    used.push({ x, y, size });
    pen.fillStyle = colours.back;
    pen.globalAlpha = 0.85;
    pen.fillRect(x, y - 1, size, LANE - 2);
    pen.globalAlpha = 1;
    pen.fillStyle = marked.has(label.n) ? colours.fault : colours.text;
    pen.fillText(words, x + 4, y + (LANE - 3) / 2);
  }
}

function draw_names() {
  pen.fillStyle = colours.panel;
  pen.fillRect(0, RULER, NAMES - 4, high);
  for (const row of rows) {
    const y = row.y + RULER - view.top;
    if (y + row.size < RULER || y > high) continue;
    pen.fillStyle = colours.text;
    pen.fillText(cut(callers[row.number], 16), 8, y + (LANE - 3) / 2);
  }
}

// The ruler: how long after the first start, or with columns by order the number of the stamp.
function draw_ruler(to_x) {
  pen.fillStyle = colours.panel;
  pen.fillRect(0, 0, wide, RULER);
  pen.fillStyle = colours.soft;
  pen.fillText(by_order ? "stamp number" : "since the first", 8, RULER / 2);
  const least = view.span / Math.max(1, (wide - NAMES) / 110);
  let step = Math.pow(10, Math.ceil(Math.log10(least)));
  if (step / 5 >= least) step /= 5; else if (step / 2 >= least) step /= 2;
  step = Math.max(1, step);
  const origin_x = by_order ? -1 : earliest;
  for (let x = Math.ceil((view.from - origin_x) / step) * step || 0; x <= to_x - origin_x; x += step) {
    const px = across(origin_x + x);
    if (px < NAMES) continue;
    pen.fillStyle = colours.line;
    pen.fillRect(px, RULER - 5, 1, 5);
    pen.fillStyle = colours.soft;
    pen.fillText((x > 0 && !by_order ? "+" : "") + x.toLocaleString("en"), px + 3, RULER / 2);
  }
  pen.fillStyle = colours.line;
  pen.fillRect(0, RULER - 1, wide, 1);
}

// The strip above: how many calls there are at each place, where the faults are, and what is in view. All but the last is drawn once.
let strip_picture = null;
function draw_strip() {
  const [w, h] = sized(whole, whole_pen), scale = (w - NAMES) / (last - first), x_of = x => NAMES + (x - first) * scale;
  if (!strip_picture || strip_picture.width !== whole.width || strip_picture.height !== whole.height) {
    strip_picture = document.createElement("canvas");
    strip_picture.width = whole.width;
    strip_picture.height = whole.height;
    const to = strip_picture.getContext("2d");
    to.setTransform(whole_pen.getTransform());
    draw_counts(to, w, h, x_of);
  }
  whole_pen.save();
  whole_pen.setTransform(1, 0, 0, 1, 0, 0);
  whole_pen.drawImage(strip_picture, 0, 0);
  whole_pen.restore();
  whole_pen.strokeStyle = colours.key;
  whole_pen.lineWidth = 2;
  const from = Math.max(NAMES, x_of(view.from)), to = Math.min(w - 1, Math.max(from + 3, x_of(view.from + view.span)));
  whole_pen.strokeRect(from, 1, Math.max(3, to - from), h - 2);
}

function draw_counts(pen, w, h, x_of) {
  pen.fillStyle = colours.back;
  pen.fillRect(0, 0, w, h);
  pen.fillStyle = colours.soft;
  pen.font = "11px ui-monospace, monospace";
  pen.textBaseline = "middle";
  pen.fillText("all calls", 8, h / 2);
  const bar = (w - NAMES) / strip.length;
  pen.fillStyle = colours.put;
  strip.forEach((many, i) => { if (many) { const size = Math.max(2, many / strip_most * (h - 8)); pen.fillRect(NAMES + i * bar, h - 2 - size, Math.max(1, bar), size); } });
  pen.fillStyle = colours.fault;
  for (const px of fault_pixels(w, x_of)) pen.fillRect(px, 0, 2, 6);
}

function fault_pixels(w, x_of) {
  const pixels = new Set();
  for (const fault of faults) {
    const n = fault.calls[fault.calls.length - 1];
    if (n !== undefined && is_shown[n]) pixels.add(Math.round(Math.min(w - 2, Math.max(NAMES, x_of(left[n])))));
  }
  return pixels;
}

// Moving.
function keep_in() {
  const all = last - first;
  view.span = Math.min(Math.max(view.span, by_order ? 2 : 1), all * 1.2 + 4);
  view.from = Math.min(Math.max(view.from, Math.min(first - all * 0.1, first - view.span * 0.5)), last + all * 0.1 - view.span * 0.5);
  view.top = Math.max(0, Math.min(view.top, height + GAP - (high - RULER)));
}
function zoom(by, px) {
  const x = back_across(px);
  view.span *= by;
  keep_in();
  view.from = x - (px - NAMES) / (wide - NAMES) * view.span;
  keep_in();
  due();
}
function scroll(x, y) { view.from += x / (wide - NAMES) * view.span; view.top += y; keep_in(); due(); }
function fit() { view.span = (last - first) * 1.04; view.from = first - (last - first) * 0.02; view.top = 0; keep_in(); due(); }

// Brings calls into view, with room at both sides. Those of what was there before widen nothing.
function show(calls) {
  let from = Infinity, to = -Infinity, top = Infinity, bottom = -Infinity;
  for (const n of calls) {
    if (!is_shown[n]) continue;
    const y = y_of(n);
    top = Math.min(top, y);
    bottom = Math.max(bottom, y + LANE);
    if (is_before(n)) continue;
    from = Math.min(from, left[n]);
    to = Math.max(to, right[n] < Infinity ? right[n] : left[n]);
  }
  if (from > to) { due(); return; }
  const span = Math.max(to - from, by_order ? 4 : 20);
  view.span = span * 1.5;
  view.from = from - (view.span - (to - from)) / 2;
  if (top < view.top || bottom > view.top + high - RULER) view.top = top - 20;
  keep_in();
  due();
}

// Choosing.
function call_words(n) {
  const call = told(n);
  return `line ${call.line}${added[n] ? " (not recorded: its value was there from the start, and was read there first)" : ""}\ncaller ${call.caller}\n${call.act} ${call.key}${call.value ? " " + call.value : ""}\nstart ${call.start}\nend   ${call.end}\n${lasted(call)}${call.time ? (call.act === "put" ? "\nexpires at " : "\nmoment ") + call.time : ""}`;
}
function choose_call(n) {
  chosen = n;
  const call = told(n);
  at("what").textContent = `${call.act} on line ${call.line}`;
  at("sentence").textContent = "";
  at("one").textContent = call_words(n) + "\n\n" + line_text(n).replace(/^\S+ /, "");
  at("only").hidden = false;
  at("rows").textContent = "";
  due();
}
function choose_fault(number) {
  const fault = faults[number];
  if (!fault) return;
  chosen_fault = number;
  chosen = -1;
  marked = new Set(fault.calls);
  if (fault.calls.some(n => !is_shown[n])) { at("filter").value = ""; lay_out(); list_faults(); }
  stack();
  view.top = 0;
  at("what").textContent = `Fault ${number + 1} of ${faults.length}: ${fault.kind}`;
  at("sentence").textContent = fault.sentence;
  const notes = [];
  if (fault.late) notes.push(`late by ${fault.late}`);
  if (fault.more) notes.push(fault.more);
  if (/ the 8 puts of its value/.test(fault.sentence)) notes.push("of the puts of one value, the first eight are named");
  if (fault.calls.length === 0) notes.push("its calls are not in this page");
  at("one").textContent = notes.join("\n");
  at("only").hidden = false;
  table(fault);
  while (shown_faults < listed.length && shown_faults <= listed.indexOf(number)) more_faults();
  set_current(null);
  set_current(at("list").querySelector(`button[data-number="${number}"]`));
  show(fault.calls);
}
// Marks the button of the chosen fault; with none, no button.
function set_current(button) {
  const before = at("list").querySelector("[aria-current=true]");
  if (!button) { if (before) before.setAttribute("aria-current", "false"); return; }
  button.setAttribute("aria-current", "true");
  button.scrollIntoView({ block: "nearest" });
}

// A table of the fault's calls, by their starts. Its times are counted from the first call, as those of the ruler.
function table(fault) {
  const made = document.createElement("table"), head = made.createTHead().insertRow(), body = made.createTBody();
  const fill = (row, words, name) => words.forEach((word, i) => {
    const cell = document.createElement(name);
    cell.textContent = word;
    cell.className = i === 1 ? "call" : "number";
    if (name === "th") cell.scope = "col";
    row.append(cell);
  });
  fill(head, ["line", "call", "start", "end"], "th");
  for (const n of [...fault.calls].sort((a, b) => start[a] - start[b])) {
    const call = told(n);
    fill(body.insertRow(), [added[n] ? "+" + call.line : call.line, `${call.caller}: ${call.act} ${cut(call.value, 24)}`, since(call.start), since(call.end)], "td");
  }
  at("rows").replaceChildren(made);
}

// The list of faults. A thousand at a time are put into the page.
let shown_faults = 0, listed = [];
const PART = 1000;
function more_faults() {
  const part = document.createDocumentFragment();
  for (const number of listed.slice(shown_faults, shown_faults + PART)) {
    const item = document.createElement("li"), button = document.createElement("button");
    button.dataset.number = number;
    button.textContent = faults[number].said;
    button.setAttribute("aria-current", String(number === chosen_fault));
    item.append(button);
    part.append(item);
  }
  at("list").append(part);
  shown_faults = Math.min(listed.length, shown_faults + PART);
  at("more").hidden = shown_faults >= listed.length;
  at("more").textContent = `More: ${many(listed.length - shown_faults, "fault")}`;
}
function list_faults() {
  const wanted = keys_like(at("filter").value.trim());
  listed = [];
  faults.forEach((fault, number) => { if (!wanted || wanted.has(key_numbers.get(fault.key))) listed.push(number); });
  shown_faults = 0;
  at("list").replaceChildren();
  at("many").textContent = faults.length === 0 ? "No faults"
    : listed.length === faults.length ? `Faults: ${faults.length.toLocaleString("en")}` : `Faults: ${listed.length.toLocaleString("en")} of ${faults.length.toLocaleString("en")}`;
  more_faults();
}
function step(by) {
  if (!listed.length) return;
  const now = listed.indexOf(chosen_fault);
  choose_fault(listed[now < 0 ? (by > 0 ? 0 : listed.length - 1) : (now + by + listed.length) % listed.length]);
}

// The call under the pointer: of those of the lane, the nearest within some pixels. A call of the fault comes first.
function call_at(px, py) {
  if (px < NAMES - 4 || py < RULER) return -1;
  const y = py - RULER + view.top, reach = 4 * view.span / (wide - NAMES), x = back_across(px);
  const gap = n => Math.max(0, left[n] - x, x - right[n]);
  for (const n of marked) if (is_shown[n]) { const top = y_of(n); if (y >= top && y < top + LANE && gap(n) <= reach) return n; }
  let low = 0, high = rows.length;
  while (low < high) { const middle = (low + high) >> 1; if (rows[middle].y + rows[middle].size <= y) low = middle + 1; else high = middle; }
  const row = rows[low];
  const lane = row && row.lanes[Math.floor((y - row.y) / LANE)];
  if (!lane) return -1;
  let best = -1, nearest = Infinity;
  for (let i = after(lane, 0, x - reach); i < lane.calls.length && left[lane.calls[i]] <= x + reach; i++) {
    const far = gap(lane.calls[i]);
    if (far < nearest) { nearest = far; best = lane.calls[i]; }
    if (far === 0) break;
  }
  return nearest <= reach ? best : -1;
}

// What the mouse, the wheel and the keys do.
let held = null;
canvas.addEventListener("wheel", event => {
  event.preventDefault();
  if (event.shiftKey || Math.abs(event.deltaX) > Math.abs(event.deltaY)) scroll(event.deltaX || event.deltaY, 0);
  else zoom(Math.pow(1.0015, event.deltaY * (event.deltaMode === 1 ? 33 : 1)), Math.max(NAMES, event.offsetX));
}, { passive: false });
canvas.addEventListener("pointerdown", event => {
  if (event.button) return;
  held = { x: event.offsetX, y: event.offsetY, moved: false };
  canvas.setPointerCapture(event.pointerId);
  canvas.focus({ preventScroll: true });
});
canvas.addEventListener("pointermove", event => {
  if (!held) { tip(event); return; }
  const x = held.x - event.offsetX, y = held.y - event.offsetY;
  if (!held.moved && Math.abs(x) + Math.abs(y) < 4) return;
  held = { x: event.offsetX, y: event.offsetY, moved: true };
  canvas.classList.add("moved");
  at("tip").style.display = "none";
  scroll(x, y);
});
canvas.addEventListener("pointerup", event => {
  if (held && !held.moved) { const n = call_at(event.offsetX, event.offsetY); if (n >= 0) choose_call(n); }
  held = null;
  canvas.classList.remove("moved");
});
canvas.addEventListener("pointerleave", () => { at("tip").style.display = "none"; });
function tip(event) {
  const n = call_at(event.offsetX, event.offsetY), box = at("tip");
  canvas.style.cursor = n >= 0 ? "pointer" : "";
  if (n < 0) { box.style.display = "none"; return; }
  box.textContent = call_words(n);
  box.style.display = "block";
  box.style.left = Math.min(event.clientX + 14, window.innerWidth - box.offsetWidth - 6) + "px";
  box.style.top = Math.min(event.clientY + 14, window.innerHeight - box.offsetHeight - 6) + "px";
}
function go_to(event) {
  const box = whole.getBoundingClientRect();
  view.from = first + (event.clientX - box.left - NAMES) / (box.width - NAMES) * (last - first) - view.span / 2;
  keep_in();
  due();
}
whole.addEventListener("pointerdown", event => { whole.setPointerCapture(event.pointerId); go_to(event); });
whole.addEventListener("pointermove", event => { if (event.buttons) go_to(event); });
const middle = () => NAMES + (wide - NAMES) / 2;
function press(event) {
  const moves = {
    ArrowLeft: () => scroll(-80, 0), ArrowRight: () => scroll(80, 0), ArrowUp: () => scroll(0, -40), ArrowDown: () => scroll(0, 40),
    PageUp: () => scroll(0, RULER - high), PageDown: () => scroll(0, high - RULER), Home: fit, 0: fit, "+": () => zoom(0.67, middle()), "=": () => zoom(0.67, middle()), "-": () => zoom(1.5, middle()),
    n: () => step(1), p: () => step(-1), o: () => at("order").click(), Escape: clear,
  };
  const move = moves[event.key], is_scroll = event.key.length > 4 && event.key !== "Escape";
  if (is_scroll && event.target !== canvas && event.target !== document.body) return;
  if (!move || event.ctrlKey || event.metaKey || event.altKey) return;
  event.preventDefault();
  move();
}
function clear() {
  marked = new Set();
  chosen = chosen_fault = -1;
  stack();
  at("what").textContent = "No call is chosen";
  at("sentence").textContent = at("one").textContent = at("rows").textContent = "";
  at("only").hidden = true;
  set_current(null);
  due();
}
document.addEventListener("keydown", event => { if (!(event.target instanceof HTMLInputElement)) press(event); });
at("in").addEventListener("click", () => zoom(0.5, middle()));
at("out").addEventListener("click", () => zoom(2, middle()));
at("fit").addEventListener("click", fit);
at("order").addEventListener("click", () => {
  by_order = !by_order;
  at("order").setAttribute("aria-pressed", String(by_order));
  lay_out();
  if (marked.size) show([...marked]); else if (chosen >= 0) show([chosen]); else fit();
});
at("list").addEventListener("click", event => { const button = event.target.closest("button"); if (button) choose_fault(Number(button.dataset.number)); });
at("more").addEventListener("click", more_faults);
at("only").addEventListener("click", () => {
  const key = chosen >= 0 ? keys[key_of[chosen]] : faults[chosen_fault] && faults[chosen_fault].key;
  if (key === undefined) return;
  at("filter").value = key;
  filtered();
});
function filtered() {
  lay_out();
  list_faults();
  if (marked.size && [...marked].every(n => is_shown[n])) show([...marked]); else fit();
}
let typing = 0;
at("filter").addEventListener("input", () => { clearTimeout(typing); typing = setTimeout(filtered, total > 20000 ? 250 : 60); });
new ResizeObserver(() => { draw(); keep_in(); due(); }).observe(canvas);
matchMedia("(prefers-color-scheme: dark)").addEventListener("change", () => { colours_now(); strip_picture = null; due(); });

// What is shown first: the verdict, and the first fault.
at("verdict").textContent = verdict[0] || "kangaroo judge";
document.title = (verdict[0] || "").split(" ")[0] + " - kangaroo judge";
at("said").textContent = verdict.slice(1).join("\n");
colours_now();
lay_out();
list_faults();
draw();
fit();
if (faults.length) choose_fault(0);
draw();
document.documentElement.dataset.shown = String(Math.round(performance.now() - began));
</script>
</body>
</html>
"##;

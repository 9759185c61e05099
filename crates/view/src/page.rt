// What stands in a page before its title, between that and the transcript, and behind that. The page's policy names its style and its script by their SHA-256: where one of them is
// changed, `python3 checks/page.py --mend` writes the sums anew.

/// The head of a page: its style, and the beginning of its title and of what is said of the lines that close a run.
pub const PAGE_HEAD: &str = r##"<!doctype html>
<html lang="en">
<head>
<meta charset="utf-8">
<meta http-equiv="Content-Security-Policy" content="default-src 'none'; style-src 'sha256-1rSGc3z1+YhgjV9lJZ9ary0P0ognmJGXkg7rn1jHC7s='; script-src 'sha256-mCQGXjyL6uSbbwMlEcaYmllb+mMybtor2gS14OHCTRU='; base-uri 'none'; form-action 'none'">
<meta name="viewport" content="width=device-width, initial-scale=1">
<meta name="referrer" content="no-referrer">
<title>A run of the board</title>
<style>
:root { color-scheme: light dark; --back: #fbfaf7; --ink: #1d1d1f; --soft: #6a6a70; --edge: #d5d2ca; --board: #24272e; --dark: #3a3f49; --lit: #ff4b33; --mark: #0b62c4; }
@media (prefers-color-scheme: dark) { :root { --back: #16171a; --ink: #ececee; --soft: #a0a0a8; --edge: #3a3c42; --board: #0c0d10; --dark: #2a2d35; --lit: #ff5a40; --mark: #7db8ff; } }
* { box-sizing: border-box; }
body { margin: 0 auto; padding: 1rem; max-width: 72rem; background: var(--back); color: var(--ink); font: 1rem/1.5 system-ui, sans-serif; }
h1 { font-size: 1.25rem; margin: 0 0 .5rem; }
h2 { font-size: 1rem; margin: 1rem 0 .25rem; }
button { font: inherit; color: inherit; background: none; border: 1px solid var(--edge); border-radius: .4rem; padding: .3rem .7rem; min-height: 2.5rem; cursor: pointer; }
button:focus-visible, input:focus-visible, select:focus-visible, summary:focus-visible, [tabindex]:focus-visible { outline: 3px solid var(--mark); outline-offset: 2px; }
select { font: inherit; min-height: 2.5rem; }
.controls { display: flex; flex-wrap: wrap; gap: .5rem; align-items: center; position: sticky; top: 0; background: var(--back); padding: .5rem 0; z-index: 1; }
.line { flex: 1 1 12rem; min-width: 8rem; }
.line input { display: block; width: 100%; margin: 0; accent-color: var(--mark); }
.line svg { display: block; width: 100%; height: .6rem; }
.line path { stroke: var(--mark); stroke-width: 4; }
.line .of-b { stroke: var(--lit); }
.controls output { min-width: 7rem; font-variant-numeric: tabular-nums; }
.boards { display: flex; flex-wrap: wrap; gap: 1rem; }
.board { flex: 1 1 20rem; min-width: 0; border-top: 1px solid var(--edge); }
.rest { min-width: 0; }
@media (min-width: 52rem) { .one .board { display: grid; grid-template-columns: minmax(0, 24rem) minmax(0, 1fr); gap: 0 2rem; } }
.device { display: flex; align-items: center; justify-content: center; gap: 3%; max-width: 28rem; padding: 3% 3% 1%; margin: .5rem 0 0; background: var(--board); border-radius: 1rem 1rem 0 0; }
.lights { display: grid; grid-template-columns: repeat(5, 1fr); gap: 6%; flex: 1 1 auto; min-width: 0; aspect-ratio: 1; padding: 3%; background: var(--board); }
.key, .pad { color: #d5d5da; border: 2px solid var(--dark); font-weight: 600; text-align: center; }
.key { flex: 0 0 2.2rem; height: 2.2rem; line-height: 2rem; border-radius: 50%; }
.pads { display: flex; justify-content: space-around; max-width: 28rem; padding: 0 3% 2%; margin: 0 0 .5rem; background: var(--board); border-radius: 0 0 1rem 1rem; }
.pad { padding: 0 .8rem; border-radius: .4rem; font-size: .8rem; }
.down { background: #ffd24a; color: #1d1d1f; border-color: #ffd24a; transform: translateY(2px); }
.high { border-color: var(--lit); }
.light { background: var(--dark); border-radius: 20%; }
.light.on { background: var(--lit); box-shadow: 0 0 .6rem var(--lit); }
.strip { overflow-x: auto; border: 1px solid var(--edge); border-radius: .4rem; height: 5.6rem; }
.inner { position: relative; height: 4.4rem; }
.frame { position: absolute; top: 0; width: 64px; height: 4.3rem; min-height: 0; padding: 4px; border: 0; border-radius: .3rem; font-size: .7rem; line-height: 1; }
.frame[aria-current] { background: var(--edge); }
.frame svg { display: block; width: 46px; height: 46px; margin: 0 auto 3px; background: var(--board); border-radius: 4px; }
.frame path { fill: var(--lit); }
pre { margin: .25rem 0; padding: .5rem; border: 1px solid var(--edge); border-radius: .4rem; overflow: auto; max-height: 14rem; white-space: pre-wrap; overflow-wrap: anywhere; font: .9rem/1.4 ui-monospace, monospace; }
.later { color: var(--soft); }
.pin { display: flex; gap: .5rem; align-items: center; }
.pin svg { flex: 1; height: 2rem; min-width: 0; }
.pin polyline { fill: none; stroke: var(--ink); stroke-width: 2; vector-effect: non-scaling-stroke; }
.pin line { stroke: var(--mark); stroke-width: 2; vector-effect: non-scaling-stroke; }
ul { margin: .25rem 0; padding-left: 1.2rem; }
.closing { font-weight: 600; margin: .5rem 0 0; }
.says { margin: 0 0 .5rem; }
summary { cursor: pointer; margin-top: 1rem; }
[hidden] { display: none; }
</style>
</head>
<body>
<pre id="said" hidden>
"##;

/// What stands between the title and what is said, and the transcript: the controls.
pub const PAGE_MIDDLE: &str = r##"</pre>
<h1 id="name">A run of the board</h1>
<div class="controls" id="controls" hidden>
<button id="back" type="button" aria-label="One line back">&#9664;</button>
<button id="play" type="button">Play</button>
<button id="on" type="button" aria-label="One line on">&#9654;</button>
<span class="line"><input id="time" type="range" min="0" step="1" value="0" aria-label="Moment in milliseconds"><svg id="presses" viewBox="0 0 1000 10" preserveAspectRatio="none" role="img" hidden></svg></span>
<output id="now" for="time"></output>
<label>Speed <select id="speed"><option value="0.0625">1/16</option><option value="0.25">1/4</option><option value="1" selected>1</option><option value="4">4</option><option value="16">16</option></select></label>
</div>
<div id="told"></div>
<div class="boards" id="boards"></div>
<div id="between" hidden><h2>Radio</h2><ul id="radio"></ul></div>
<details id="all" open><summary>The transcript</summary>
<pre id="transcript" tabindex="0">
"##;

/// The tail of a page: the end of the transcript, and the script that draws.
pub const PAGE_TAIL: &str = r##"</pre>
</details>
<script>
"use strict";
(() => {
const at = (id) => document.getElementById(id);
const make = (name, text, kind) => { const it = document.createElement(name); if (text !== undefined) it.textContent = text; if (kind) it.className = kind; return it; };
const drawn = (name, words) => { const it = document.createElementNS("http://www.w3.org/2000/svg", name); for (const key in words) it.setAttribute(key, words[key]); return it; };

// A text of this page with its bytes in place of their digits, and one whose signs that aren't seen stand as their numbers.
const plain = (text) => {
  if (!text.includes("\\x")) return text;
  const bytes = [];
  for (let i = 0; i < text.length; i += 1) if (text[i] === "\\" && text[i + 1] === "x") { bytes.push(parseInt(text.slice(i + 2, i + 4), 16)); i += 3; } else bytes.push(text.charCodeAt(i));
  return new TextDecoder("utf-8").decode(new Uint8Array(bytes));
};
const seen = (text) => text.replace(/[\u0000-\u0008\u000b-\u001f\u007f-\u009f\u00ad\u061c\u180e\u200b-\u200f\u2028-\u202e\u2060-\u206f\ufeff\ufff9-\uffff]/g, (it) => (it === "\r" || it === "\ufffd" ? it : "\\u" + it.charCodeAt(0).toString(16).padStart(4, "0")));

// The title, and what is said of lines: behind a tab, or in rows below.
const rows = at("said").textContent.split("\n").map(plain), said = new Map();
const title = seen(rows.shift());
if (title) { at("name").textContent = title; document.title = title; }
let of = null;
for (const row of rows) {
  if (row.startsWith("  | ") && of) { of.rows.push(row.slice(4)); continue; }
  const [line, says] = row.split("\t");
  of = { says: says || "", rows: [] };
  said.set(line, of);
}

// The lines, each with its moment, the board's number and what it tells.
const lines = at("transcript").textContent.split("\n");
if (lines[lines.length - 1] === "") lines.pop();
const boards = new Map(), moments = [];
const boardOf = (number) => {
  if (!boards.has(number)) boards.set(number, { number, frames: [], text: "", texts: [], pins: new Map(), radio: [], closing: null, keys: [], left: [], others: false, reads: new TextDecoder("utf-8") });
  return boards.get(number);
};
const telling = /^(?:(\d) )?(\d{1,10}) (display|serial|pin|radio|button|event|left) (.*)$/, closing = /^(?:(\d) )?(end|panic|fault|budget) (\d{1,10})(?: .*)?$/;
const told = [];
lines.forEach((line) => {
  let found = telling.exec(line);
  if (found) {
    const [, number, moment, kind, rest] = found, board = boardOf(number ?? ""), index = moments.length, time = Number(moment);
    const pressed = kind === "button" ? /^([AB]) goes (down|up)$/.exec(rest) : kind === "event" ? /^(10[0-2]) ([12])$/.exec(rest) : null;
    if (kind === "display" && /^[#.]{5}(\/[#.]{5}){4}$/.test(rest)) board.frames.push({ index, time, rows: rest });
    else if (kind === "serial" && /^([0-9a-f]{2})*$/.test(rest)) {
      const bytes = new Uint8Array(rest.length / 2);
      for (let i = 0; i < bytes.length; i += 1) bytes[i] = parseInt(rest.slice(2 * i, 2 * i + 2), 16);
      board.text += seen(board.reads.decode(bytes, { stream: true }));
      board.texts.push({ index, upto: board.text.length });
    } else if (kind === "pin" && /^\d+ [01]$/.test(rest)) {
      const [pin, level] = rest.split(" ").map(Number);
      if (!board.pins.has(pin)) board.pins.set(pin, []);
      board.pins.get(pin).push({ index, time, level });
    } else if (kind === "radio" && /^-?\d+$/.test(rest)) board.radio.push({ index, time, word: rest });
    else if (pressed) board.keys.push({ index, time, key: kind === "button" ? pressed[1] : "P" + (pressed[1] - 100), down: pressed[2] === "down" || pressed[2] === "1" });
    else if (kind === "left" && /^out \d+$/.test(rest)) board.left.push({ time, count: Number(rest.slice(4)) });
    else { told.push(line); return; }
    moments.push(time);
  } else if ((found = closing.exec(line))) {
    const board = boardOf(found[1] ?? "");
    board.closing = { index: moments.length, time: Number(found[3]), line: line };
    moments.push(Number(found[3]));
  } else told.push(line);
});
const end = moments.reduce((most, it) => Math.max(most, it), 0);

// The frames of one moment are drawn as one, and at most so many are drawn.
const MOST = 2000;
const groupsOf = (board) => {
  const groups = [];
  board.frames.forEach((frame, i) => {
    const last = groups[groups.length - 1];
    if (last && last.time === frame.time) { last.count += 1; last.upto = i; } else groups.push({ time: frame.time, count: 1, from: i, upto: i, more: false });
  });
  for (const left of board.left) for (const it of groups) if (it.time === left.time) { if (board.texts.length || board.pins.size || board.radio.length) it.more = true; else it.count += left.count; }
  return groups;
};
const named = (it) => (it.count === 1 ? "" : it.count + (it.more ? "+" : "") + " at ") + it.time + " ms";

// The last of some items, in order, that comes at an index or before it; -1 where there is none.
const lastUpto = (items, index) => { let low = 0, high = items.length; while (low < high) { const mid = (low + high) >> 1; if (items[mid].index <= index) low = mid + 1; else high = mid; } return low - 1; };
const inWords = (rows) => rows.split("/").map((row, i) => "row " + (i + 1) + ": " + ([...row].map((it, k) => (it === "#" ? k + 1 : 0)).filter(Boolean).join(" ") || "dark")).join(", ");
const pathOf = (rows) => { let path = ""; rows.split("/").forEach((row, y) => [...row].forEach((it, x) => { if (it === "#") path += "M" + (x * 10 + 3) + " " + (y * 10 + 3) + "h8v8h-8z"; })); return path; };

// A board's part of the page, as a function of the index of a line.
const WIDTH = 64;
const shown = (board, select) => {
  const part = make("section", undefined, "board"), name = board.number === "" ? "Board" : "Board " + board.number;
  part.setAttribute("aria-label", name);
  if (boards.size > 1) part.append(make("h2", name));
  const lights = make("div", undefined, "lights"), all = [], device = make("div", undefined, "device"), pads = make("div", undefined, "pads"), left = make("div"), rest = make("div", undefined, "rest"), keys = new Map();
  lights.setAttribute("role", "img");
  for (let i = 0; i < 25; i += 1) { const light = make("span", undefined, "light"); all.push(light); lights.append(light); }
  for (const key of ["A", "B", "P0", "P1", "P2"]) { const it = make("span", key, key.length === 1 ? "key" : "pad"); it.setAttribute("role", "img"); it.dataset.key = key; keys.set(key, it); }
  device.append(keys.get("A"), lights, keys.get("B"));
  pads.append(keys.get("P0"), keys.get("P1"), keys.get("P2"));
  left.append(device, pads);
  part.append(left, rest);
  const groups = groupsOf(board), groupAt = (frame) => { let low = 0, high = groups.length; while (low < high) { const mid = (low + high) >> 1; if (groups[mid].from <= frame) low = mid + 1; else high = mid; } return low - 1; };
  const strip = make("div", undefined, "strip"), inner = make("div", undefined, "inner");
  let current = -1;
  const fill = () => {
    const from = Math.max(0, Math.floor(strip.scrollLeft / WIDTH) - 4), upto = Math.min(groups.length, MOST, from + Math.ceil((strip.clientWidth || 800) / WIDTH) + 9), held = document.activeElement && document.activeElement.dataset.frame;
    inner.replaceChildren();
    for (let i = from; i < upto; i += 1) {
      const group = groups[i], frame = board.frames[group.upto], it = make("button", undefined, "frame"), picture = drawn("svg", { viewBox: "0 0 57 57", "aria-hidden": "true" });
      it.type = "button";
      it.dataset.frame = String(i);
      it.style.left = i * WIDTH + "px";
      it.setAttribute("aria-label", named(group) + ", " + inWords(frame.rows));
      if (current >= group.from && current <= group.upto) it.setAttribute("aria-current", "true");
      picture.append(drawn("path", { d: pathOf(frame.rows) }));
      it.append(picture, named(group));
      it.addEventListener("click", () => select(frame.index));
      inner.append(it);
      if (held === String(i)) it.focus({ preventScroll: true });
    }
  };
  if (board.frames.length) {
    inner.style.width = Math.min(groups.length, MOST) * WIDTH + "px";
    strip.append(inner);
    strip.addEventListener("scroll", fill);
    rest.append(make("h2", "Pictures: " + groups.reduce((sum, it) => sum + it.count, 0) + (groups.length > MOST ? ", of which " + MOST + " are drawn" : "")), strip);
  }
  const before = make("span"), later = make("span", undefined, "later");
  if (board.texts.length) {
    const text = make("pre");
    text.tabIndex = 0;
    text.append(before, later);
    rest.append(make("h2", "Serial port"), text);
  }
  const cursors = [];
  if (board.pins.size) rest.append(make("h2", "Pins"));
  for (const [pin, levels] of [...board.pins].sort((a, b) => a[0] - b[0])) {
    const row = make("div", undefined, "pin"), wide = Math.max(end, 1), picture = drawn("svg", { viewBox: "0 0 1000 10", preserveAspectRatio: "none", role: "img" }), level = make("output");
    let points = "0,9", last = 9;
    for (const it of levels) { const x = (1000 * it.time) / wide; points += " " + x + "," + last; last = it.level ? 1 : 9; points += " " + x + "," + last; }
    picture.append(drawn("polyline", { points: points + " 1000," + last }));
    const cursor = drawn("line", { x1: 0, x2: 0, y1: 0, y2: 10 });
    picture.append(cursor);
    picture.setAttribute("aria-label", "Pin " + pin + ": " + levels.slice(0, 50).map((it) => it.level + " from " + it.time + " ms").join(", "));
    row.append(make("span", "P" + pin), picture, level);
    rest.append(row);
    cursors.push((index, time) => { const k = lastUpto(levels, index), x = (1000 * time) / wide; cursor.setAttribute("x1", x); cursor.setAttribute("x2", x); level.textContent = k < 0 ? "0" : String(levels[k].level); const pad = keys.get("P" + pin); if (pad) pad.classList.toggle("high", k >= 0 && levels[k].level === 1); });
  }
  for (const [key, it] of keys) {
    const turns = board.keys.filter((turn) => turn.key === key);
    cursors.push((index) => { const k = lastUpto(turns, index), down = k >= 0 && turns[k].down; it.classList.toggle("down", down); it.setAttribute("aria-label", (key.length === 1 ? "button " : "pin ") + key + (down ? ", down" : "")); });
  }
  const close = make("p", undefined, "closing"), says = make("p", undefined, "says"), below = make("pre");
  below.tabIndex = 0;
  rest.append(close, says, below);
  at("boards").append(part);
  fill();
  return (index, time) => {
    const k = lastUpto(board.frames, index), rows = k < 0 ? ".....".repeat(5) : board.frames[k].rows.replaceAll("/", "");
    all.forEach((light, i) => light.classList.toggle("on", rows[i] === "#"));
    lights.setAttribute("aria-label", name + ", " + (k < 0 ? "dark" : inWords(board.frames[k].rows)));
    if (k !== current) {
      current = k;
      const left = Math.min(Math.max(0, groupAt(k)), MOST - 1) * WIDTH;
      if (left < strip.scrollLeft || left + WIDTH > strip.scrollLeft + strip.clientWidth) strip.scrollLeft = left - strip.clientWidth / 2 + WIDTH / 2;
      fill();
    }
    const t = lastUpto(board.texts, index), upto = t < 0 ? 0 : board.texts[t].upto;
    before.textContent = board.text.slice(0, upto);
    later.textContent = board.text.slice(upto);
    cursors.forEach((it) => it(index, time));
    const ended = board.closing && board.closing.index <= index, about = (ended && said.get(board.closing.line)) || { says: "", rows: [] };
    close.textContent = ended ? board.closing.line : "";
    says.textContent = about.says;
    below.textContent = about.rows.join("\n");
    says.hidden = !about.says;
    below.hidden = !about.rows.length;
  };
};

// The state: up to which line it is shown, and the moment.
let index = -1, time = 0, playing = false, last = 0;
const parts = [];
const words = [...boards.values()].flatMap((board) => board.radio.map((it) => ({ ...it, number: board.number }))).sort((a, b) => a.index - b.index);
const show = () => {
  parts.forEach((it) => it(index, time));
  at("time").value = String(time);
  at("now").textContent = Math.floor(time) + " of " + end + " ms";
  if (words.length) {
    const upto = lastUpto(words, index) + 1;
    at("radio").replaceChildren(...words.slice(Math.max(0, upto - 12), upto).map((it) => make("li", it.time + " ms" + (it.number === "" ? "" : ", board " + it.number) + ": " + it.word)));
  }
};
const seek = (moment) => {
  time = Math.min(Math.max(moment, 0), end);
  // (moments needn't rise from line to line, as behind the line of a panic in a class)
  index = -1;
  for (let i = 0; i < moments.length; i += 1) if (moments[i] <= time) index = i; else break;
  show();
};
const select = (line) => { pause(); index = Math.min(Math.max(line, -1), moments.length - 1); time = index < 0 ? 0 : moments[index]; show(); };
const pause = () => { playing = false; at("play").textContent = "Play"; };
const turn = (now) => {
  if (!playing) return;
  const speed = Number(at("speed").value), next = time + (now - last) * speed;
  last = now;
  seek(next);
  if (time >= end) pause(); else requestAnimationFrame(turn);
};
const toggle = () => {
  if (playing) { pause(); return; }
  if (time >= end) seek(0);
  playing = true;
  at("play").textContent = "Pause";
  last = performance.now();
  requestAnimationFrame(turn);
};
for (const line of told) {
  const about = said.get(line);
  if (!about) continue;
  at("told").append(make("p", line, "closing"));
  if (about.says) at("told").append(make("p", about.says, "says"));
  if (about.rows.length) { const below = make("pre", about.rows.join("\n")); below.tabIndex = 0; at("told").append(below); }
}
// The presses on the time line: a stroke from each going down to the next going up, A's above those of B and of pins.
const marked = () => {
  const wide = Math.max(end, 1), paths = new Map();
  for (const board of boards.values()) {
    const since = new Map();
    for (const it of [...board.keys, ...["A", "B", "P0", "P1", "P2"].map((key) => ({ key, down: false, time: end }))]) {
      if (it.down) { if (!since.has(it.key)) since.set(it.key, it.time); continue; }
      if (!since.has(it.key)) continue;
      const row = it.key === "A" ? "of-a" : "of-b", x = (1000 * since.get(it.key)) / wide;
      paths.set(row, (paths.get(row) || "") + "M" + x + " " + (row === "of-a" ? 2 : 7) + "H" + Math.max(x + 2, (1000 * it.time) / wide));
      since.delete(it.key);
    }
  }
  for (const [row, d] of paths) at("presses").append(drawn("path", { d, class: row }));
  at("presses").setAttribute("aria-label", "Presses: " + [...boards.values()].flatMap((board) => board.keys.filter((it) => it.down).map((it) => it.key + " from " + it.time + " ms")).slice(0, 50).join(", "));
  at("presses").toggleAttribute("hidden", !paths.size);
};
if (boards.size) {
  marked();
  at("boards").classList.toggle("one", boards.size === 1);
  for (const board of [...boards.values()].sort((a, b) => (a.number < b.number ? -1 : 1))) parts.push(shown(board, select));
  at("controls").hidden = false;
  at("between").hidden = !words.length;
  at("time").max = String(end);
  at("time").addEventListener("input", () => { pause(); seek(Number(at("time").value)); });
  at("play").addEventListener("click", toggle);
  at("back").addEventListener("click", () => select(index - 1));
  at("on").addEventListener("click", () => select(index + 1));
  document.addEventListener("keydown", (key) => {
    if (key.ctrlKey || key.altKey || key.metaKey || /^(INPUT|SELECT|BUTTON|SUMMARY|PRE)$/.test(key.target.tagName)) return;
    if (key.key === " ") toggle(); else if (key.key === "ArrowLeft") select(index - 1); else if (key.key === "ArrowRight") select(index + 1); else return;
    key.preventDefault();
  });
  at("all").open = told.length > 0;
  const asked = /^#t=(\d{1,10})$/.exec(location.hash);
  seek(asked ? Number(asked[1]) : 0);
}
})();
</script>
</body>
</html>
"##;

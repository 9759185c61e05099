// The page.

/// What the page may do: its own style and its own script alone, by their sums, and requests to where it came from.
pub const POLICY: &str =
    "default-src 'none'; script-src 'sha256-GVIrhgYYPE/yjsciY7MQf2bA95Kd+IQLQCPMSBi9BHQ='; style-src 'sha256-Yl5dzUnvcVNtXs76Pta0n21TRLEQzGbIQe6ZiwOpJuc='; connect-src 'self'; base-uri 'none'; form-action 'none'; frame-ancestors 'none'";

/// The page.
pub const PAGE: &str = r##"<!doctype html>
<html lang="en">
<head>
<meta charset="utf-8">
<meta name="viewport" content="width=device-width, initial-scale=1">
<meta name="referrer" content="no-referrer">
<title>Play: the board</title>
<style>
:root { color-scheme: light dark; --back: #f6f4ef; --card: #ffffff; --ink: #1d1d1f; --soft: #5c5c63; --edge: #cfcbc1; --board: #24272e; --dark: #3d424d; --lit: #ff4b33; --mark: #0b5cb8; --bad: #b3261e; --badback: #fde7e4; --key: #7a1fa2; --num: #0a6b4f; --str: #a14a00; --com: #67676f; --gold: #e6c46a; }
@media (prefers-color-scheme: dark) { :root { --back: #141518; --card: #1d1f23; --ink: #ececee; --soft: #a9a9b2; --edge: #3d4047; --board: #0b0c0f; --dark: #2c2f37; --lit: #ff5a40; --mark: #7db8ff; --bad: #ff9d94; --badback: #3a1d1b; --key: #d7a6f0; --num: #79d6b4; --str: #f0b37e; --com: #9a9aa4; } }
* { box-sizing: border-box; }
html { height: 100%; }
body { margin: 0; min-height: 100%; background: var(--back); color: var(--ink); font: 1rem/1.45 system-ui, sans-serif; }
header { display: flex; flex-wrap: wrap; gap: .5rem 1rem; align-items: center; padding: .6rem 1rem; border-bottom: 1px solid var(--edge); background: var(--card); }
h1 { font-size: 1.05rem; margin: 0; }
h1 span { font-weight: 400; color: var(--soft); }
h2 { font-size: .95rem; margin: 0 0 .35rem; }
.push { margin-left: auto; display: flex; flex-wrap: wrap; gap: .5rem; }
button, select, input { font: inherit; color: inherit; }
button { background: var(--card); border: 1px solid var(--edge); border-radius: .45rem; padding: .3rem .8rem; min-height: 2.5rem; cursor: pointer; }
button.main { background: var(--mark); border-color: var(--mark); color: var(--card); font-weight: 600; min-width: 6rem; }
button:disabled { opacity: .5; cursor: default; }
:focus-visible { outline: 3px solid var(--mark); outline-offset: 2px; }
main { display: grid; grid-template-columns: minmax(0, 1fr) minmax(20rem, 27rem); gap: 1rem; padding: 1rem; max-width: 90rem; margin: 0 auto; }
section { background: var(--card); border: 1px solid var(--edge); border-radius: .7rem; padding: .8rem; min-width: 0; }
#left { display: flex; flex-direction: column; gap: .6rem; }
.editor { position: relative; flex: 1; min-height: 24rem; max-height: 80vh; height: 34rem; border: 1px solid var(--edge); border-radius: .45rem; overflow: hidden; background: var(--back); }
.editor pre, .editor textarea { position: absolute; inset: 0 0 0 3.2rem; margin: 0; padding: .6rem; border: 0; font: .95rem/1.5 ui-monospace, "DejaVu Sans Mono", monospace; tab-size: 4; white-space: pre; overflow: auto; }
.editor pre { pointer-events: none; overflow: hidden; color: var(--ink); }
.editor pre.gutter { inset: 0 auto 0 0; width: 3.2rem; padding: .6rem .6rem .6rem 0; text-align: right; color: var(--soft); }
.editor pre div { position: absolute; top: 0; left: .6rem; min-width: calc(100% - .6rem); will-change: transform; }
.editor pre.gutter div { left: 0; width: 2.6rem; min-width: 0; }
.editor textarea { resize: none; width: calc(100% - 3.2rem); height: 100%; background: transparent; color: transparent; caret-color: var(--ink); outline-offset: -3px; }
.editor textarea::selection { background: color-mix(in srgb, var(--mark) 30%, transparent); }
.row.bad { background: var(--badback); }
.row { display: block; height: 1.5em; }
.at { text-decoration: underline wavy var(--bad) 2px; text-underline-offset: 3px; background: var(--badback); }
.key { color: var(--key); } .num { color: var(--num); } .str { color: var(--str); } .com { color: var(--com); }
@media (forced-colors: active) { .editor pre:not(.gutter) { display: none; } .editor textarea { color: CanvasText; } .light.on { background: Highlight; forced-color-adjust: none; } .light { border: 1px solid CanvasText; } }
.said { border-left: 4px solid var(--bad); background: var(--badback); padding: .5rem .7rem; border-radius: .3rem; }
.said code { display: block; margin-top: .25rem; white-space: pre-wrap; font: .9rem/1.4 ui-monospace, monospace; }
.said button { margin-top: .4rem; }
.board { background: var(--board); color: #f1f1f3; border-radius: 1.1rem; padding: 1rem; display: grid; grid-template-columns: auto 1fr auto; gap: .6rem; align-items: center; justify-items: center; }
.board.stale { opacity: .45; }
.lights { display: grid; grid-template-columns: repeat(5, 1fr); gap: 9%; width: min(100%, 11rem); aspect-ratio: 1; padding: .2rem; }
.light { background: var(--dark); border-radius: 22%; }
.light.on { background: var(--lit); box-shadow: 0 0 .7rem var(--lit); }
.press { width: 3.4rem; height: 3.4rem; border-radius: 50%; border: .35rem solid #b9bcc5; background: #15161a; color: #fff; font-weight: 700; padding: 0; touch-action: none; user-select: none; }
.press.down, .press:active { background: var(--mark); border-color: #fff; }
.press.both { width: auto; height: 2.5rem; border-radius: 1.25rem; padding: 0 1rem; border-width: .2rem; grid-column: 1 / -1; }
.pins { grid-column: 1 / -1; display: flex; flex-wrap: wrap; gap: .3rem; width: 100%; border-top: .35rem solid var(--gold); padding-top: .5rem; font-size: .85rem; min-height: 2rem; }
.pins span { border: 1px solid #777b85; border-radius: .3rem; padding: 0 .45rem; }
.pins span.high { background: var(--gold); color: #1b1b1b; border-color: var(--gold); }
#right { display: flex; flex-direction: column; gap: .8rem; }
.note { color: var(--soft); font-size: .88rem; margin: .35rem 0 0; }
.send { display: flex; flex-wrap: wrap; gap: .4rem; align-items: end; }
.send label { width: min-content; min-width: 5.5rem; display: flex; flex-direction: column; font-size: .85rem; color: var(--soft); }
.send input { width: 5.5rem; min-height: 2.5rem; border: 1px solid var(--edge); border-radius: .4rem; padding: 0 .5rem; background: var(--back); color: var(--ink); }
#line { grid-column: 1 / -1; }
.time { display: flex; flex-wrap: wrap; gap: .5rem; align-items: center; margin-top: .8rem; }
.time output { min-width: 9.5rem; font-variant-numeric: tabular-nums; }
select { min-height: 2.5rem; border: 1px solid var(--edge); border-radius: .4rem; background: var(--card); }
.track { position: relative; margin: .3rem 0; }
.track input { display: block; width: calc(100% - 40px); margin: 0 0 0 40px; accent-color: var(--mark); }
.track svg { display: block; width: 100%; height: 3.1rem; }
.track text { font: 11px system-ui, sans-serif; fill: var(--soft); }
.closing { font-weight: 600; margin: .3rem 0 0; min-height: 1.45em; }
pre.serial { margin: 0; height: 8rem; overflow: auto; white-space: pre-wrap; overflow-wrap: anywhere; font: .9rem/1.4 ui-monospace, monospace; background: var(--back); border: 1px solid var(--edge); border-radius: .4rem; padding: .5rem; }
.two { display: grid; grid-template-columns: repeat(auto-fit, minmax(min(18rem, 100%), 1fr)); gap: 1rem; }
table { border-collapse: collapse; width: 100%; font-size: .9rem; }
th, td { text-align: left; padding: .15rem .4rem; border-bottom: 1px solid var(--edge); }
td button { min-height: 1.9rem; padding: 0 .5rem; }
.scroll { max-height: 11rem; overflow: auto; }
.hidden { position: absolute; width: 1px; height: 1px; overflow: hidden; clip-path: inset(50%); white-space: nowrap; }
[hidden] { display: none !important; }
@media (max-width: 56rem) { main { grid-template-columns: minmax(0, 1fr); padding: .6rem; } #right { order: -1; } .editor { min-height: 16rem; } .push { margin-left: 0; } }
@media (prefers-reduced-motion: reduce) { .light.on { box-shadow: none; } }
</style>
</head>
<body>
<header>
<h1>Play <span id="name"></span></h1>
<span id="state" role="status"></span>
<div class="push">
<label class="pick">Examples <select id="examples"><option value="">open one</option></select></label>
<button id="save" type="button">Save program</button>
<button id="savescript" type="button">Save script</button>
</div>
</header>
<main>
<section id="left" aria-label="Program">
<h2><label for="text">Program</label></h2>
<div class="editor"><pre class="gutter" aria-hidden="true"><div id="numbers"></div></pre><pre aria-hidden="true"><div id="shown"></div></pre><textarea id="text" spellcheck="false" autocapitalize="off" autocomplete="off" wrap="off" aria-describedby="refusal"></textarea></div>
<div id="refusal" class="said" role="alert" hidden><strong id="sentence"></strong><code id="example"></code><button id="goto" type="button"></button></div>
</section>
<section id="right" aria-label="Board">
<div>
<div class="board" id="board">
<button class="press" id="a" type="button" aria-label="Button A" aria-keyshortcuts="a">A</button>
<div class="lights" id="lights" role="img" aria-label="The lights: dark"></div>
<button class="press" id="b" type="button" aria-label="Button B" aria-keyshortcuts="b">B</button>
<button class="press both" id="ab" type="button" aria-label="Buttons A and B together">A+B</button>
<div class="pins" id="pins" aria-label="Pins"></div>
</div>
<div class="time">
<button class="main" id="play" type="button">Play</button>
<button id="rewind" type="button" title="To the beginning; the script stays">Rewind</button>
<button id="anew" type="button" title="To the beginning, with an empty script">Start anew</button>
<label>Speed <select id="speed"><option value="0.0625">1/16</option><option value="0.25">1/4</option><option value="1" selected>1</option><option value="4">4</option></select></label>
<output id="now"></output>
</div>
<div class="track"><svg id="marks" aria-hidden="true"></svg><input id="time" type="range" min="0" step="1" value="0" max="4000" aria-label="Moment in milliseconds"></div>
<p class="closing" id="closing" role="status"></p>
<p class="note">Hold a button as long as you like: a press counts when it is let go within a second. Keys <kbd>A</kbd> and <kbd>B</kbd> press them outside the editor.</p>
</div>
<form class="send" id="radio"><label>Number<input id="number" inputmode="numeric" value="1" required pattern="[0-9]{1,5}"></label><button type="submit">Receive by radio</button></form>
<form class="send" id="raise"><label>Source<input id="source" inputmode="numeric" value="60" required pattern="[0-9]{1,5}"></label><label>Value<input id="value" inputmode="numeric" value="1" required pattern="[0-9]{1,5}"></label><button type="submit">Raise event</button></form>
</section>
<section id="line" aria-label="What it wrote, and the script">
<div class="two">
<div><h2>Serial port</h2><pre class="serial" id="serial" tabindex="0" role="log" aria-label="Serial port"></pre></div>
<div><h2>Script: <span id="count">nothing happens</span></h2><div class="scroll"><table><thead><tr><th>ms</th><th>what</th><th><button id="cut" type="button">Remove all after now</button></th></tr></thead><tbody id="entries"></tbody></table></div></div>
<div><h2>Radio sent</h2><pre class="serial" id="sent" tabindex="0" aria-label="Radio sent"></pre></div>
</div>
<details><summary>The transcript, as <code>sts run</code> writes it</summary><pre class="serial" id="transcript" tabindex="0" aria-label="The transcript"></pre></details>
</section>
</main>
<script type="application/json" id="texts">{"hello": "serial.writeNumber(2147483647 + 1)\n", "blinking": "// Three lights blink side by side, each at its own pace, while the main program counts on.\nfunction blink(x: number, ms: number): void {\n    while (true) {\n        led.toggle(x, 0)\n        basic.pause(ms)\n    }\n}\n\ncontrol.inBackground(() => { blink(0, 100) })\ncontrol.inBackground(() => { blink(2, 150) })\ncontrol.inBackground(() => { blink(4, 250) })\nfor (let second = 0; second \u003c 2; second++) {\n    serial.writeNumber(second)\n    basic.pause(200)\n}\n", "counter": "// Button A counts up, button B begins anew. The number is shown on the display and written to the serial line.\nlet count = 0\n\nfunction show(): void {\n    serial.writeNumber(count)\n    serial.writeString(\"\\n\")\n    basic.showNumber(count)\n}\n\ninput.onButtonPressed(Button.A, function () {\n    count += 1\n    show()\n})\ninput.onButtonPressed(Button.B, function () {\n    count = 0\n    show()\n})\n", "two buttons": "// A lamp for each button: it is on while its button is down. Both at once light the whole middle row.\nfunction lamp(x: number, on: boolean): void {\n    if (on) {\n        led.plot(x, 2)\n    } else {\n        led.unplot(x, 2)\n    }\n}\n\nbasic.forever(() => {\n    const a = input.buttonIsPressed(Button.A)\n    const b = input.buttonIsPressed(Button.B)\n    lamp(0, a)\n    lamp(4, b)\n    for (let x = 1; x \u003c 4; x++) {\n        lamp(x, a && b)\n    }\n})\n", "traffic light": "// A traffic light on pins 0 (red), 1 (yellow) and 2 (green). Whoever presses A wants to cross: the light turns red for two seconds.\nclass Light {\n    red = DigitalPin.P0\n    yellow = DigitalPin.P1\n    green = DigitalPin.P2\n\n    set(red: number, yellow: number, green: number): void {\n        pins.digitalWritePin(this.red, red)\n        pins.digitalWritePin(this.yellow, yellow)\n        pins.digitalWritePin(this.green, green)\n    }\n}\n\nconst light = new Light()\nlight.set(0, 0, 1)\ninput.onButtonPressed(Button.A, () => {\n    light.set(0, 1, 0)\n    basic.pause(500)\n    light.set(1, 0, 0)\n    basic.pause(2000)\n    light.set(1, 1, 0)\n    basic.pause(500)\n    light.set(0, 0, 1)\n})\n", "game": "// A catching game: A and B move the paddle at the bottom, and a drop falls. Who catches it scores.\nclass Paddle {\n    x: number = 2\n    constructor () { led.plot(2, 4) }\n    move(d: number): void {\n        led.unplot(this.x, 4)\n        this.x = Math.max(0, Math.min(4, this.x + d))\n        led.plot(this.x, 4)\n    }\n}\nlet paddle = new Paddle()\nlet drops = [0, 3, 1, 4, 2]\nlet turn = 0\nlet score = 0\ninput.onButtonPressed(Button.A, function () { paddle.move(-1) })\ninput.onButtonPressed(Button.B, function () { paddle.move(1) })\nbasic.forever(function () {\n    if (turn \u003c 1) {\n        let col = drops[turn]\n        for (let row = 0; row \u003c 4; row++) {\n            led.plot(col, row)\n            basic.pause(100)\n            led.unplot(col, row)\n        }\n        if (paddle.x == col) { score += 1 }\n        turn += 1\n        basic.showNumber(score)\n    }\n})\n", "melody": "// A melody as an array of notes, each a pitch and a length in beats, written to the serial line as it is played.\nconst notes = [60, 2, 62, 2, 64, 4, 62, 1, 60, 1]\nlet beat = 50\nlet played: number[] = []\n\nfunction play(pitch: number, beats: number): void {\n    serial.writeString(\"note \")\n    serial.writeNumber(pitch)\n    serial.writeString(\"\\n\")\n    played.push(pitch)\n    basic.pause(beats * beat)\n}\n\nfor (let i = 0; i \u003c notes.length; i += 2) {\n    play(notes[i], notes[i + 1])\n}\nlet highest = 0\nfor (const pitch of played) {\n    highest = Math.max(highest, pitch)\n}\nserial.writeNumber(highest)\nwhile (played.length > 0) {\n    played.pop()\n}\n"}</script>
<script>
"use strict";
const at = (id) => document.getElementById(id);
const make = (name, text, kind) => { const it = document.createElement(name); if (text !== undefined) it.textContent = text; if (kind) it.className = kind; return it; };
const drawn = (name, words, text) => { const it = document.createElementNS("http://www.w3.org/2000/svg", name); for (const key in words) it.setAttribute(key, words[key]); if (text) it.textContent = text; return it; };
const bytesOf = (text) => new TextEncoder().encode(text);
const AHEAD = 4000, MOST = 1073741824, MOST_BUDGET = 50000000, MOST_EVENT = 65535;

// The script, the last answer, the moment shown.
let events = [], answer = { lines: [], closing: null, end: 0, view: "", status: 0 }, time = 0, playing = false, last = 0, version = 0, busy = false, again = false;
const secret = location.hash.slice(1);
const sums = { program: "", script: "" };
let keptText = "", keptScript = "[]";

// ---- the editor: colours lie below a text area, of the rows that are seen
const WORD = /(\/\/.*)|("(?:[^"\\]|\\.)*"?|'(?:[^'\\]|\\.)*'?|`[^`]*`?)|\b(let|const|function|class|constructor|return|if|else|while|for|of|new|this|true|false|null|break|continue|void|number|boolean|string)\b|\b(0x[0-9a-fA-F]+|\d+)\b/g;
const KINDS = ["", "com", "str", "key", "num"];
let mark = null;
let rows = [""], rowHigh = 0, firstDrawn = -1, lastDrawn = -1;
const drawRow = (row, number) => {
  const bad = mark && mark.line === number, it = make("span", undefined, bad ? "row bad" : "row");
  const put = (text, kind, from) => {
    if (bad && from <= mark.at && mark.at < from + text.length) {
      const k = mark.at - from, end = k + [...text.slice(k)][0].length;
      if (k) it.append(make("span", text.slice(0, k), kind));
      it.append(make("span", text.slice(k, end), kind + " at"));
      if (end < text.length) it.append(make("span", text.slice(end), kind));
    } else it.append(kind ? make("span", text, kind) : text);
  };
  let from = 0;
  for (const found of row.matchAll(WORD)) {
    if (found.index > from) put(row.slice(from, found.index), "", from);
    put(found[0], KINDS[found.slice(1).findIndex((one) => one !== undefined) + 1], found.index);
    from = found.index + found[0].length;
  }
  if (from < row.length) put(row.slice(from), "", from);
  if (bad && mark.at >= row.length) it.append(make("span", " ", "at"));
  return it;
};
const drawText = () => { rows = at("text").value.split("\n"); firstDrawn = -1; scrollText(); };
const scrollText = () => {
  const area = at("text");
  if (!rowHigh) rowHigh = parseFloat(getComputedStyle(area).lineHeight);
  const top = parseFloat(getComputedStyle(area).paddingTop), first = Math.max(0, Math.floor((area.scrollTop - top) / rowHigh)), last = Math.min(rows.length, first + Math.ceil(area.clientHeight / rowHigh) + 2);
  if (first !== firstDrawn || last !== lastDrawn) {
    firstDrawn = first;
    lastDrawn = last;
    at("shown").replaceChildren(...rows.slice(first, last).map((row, i) => drawRow(row, first + i + 1)));
    at("numbers").replaceChildren(...rows.slice(first, last).map((row, i) => make("span", String(first + i + 1), "row")));
  }
  const down = top + first * rowHigh - area.scrollTop;
  at("shown").style.transform = "translate(" + -area.scrollLeft + "px, " + down + "px)";
  at("numbers").style.transform = "translateY(" + down + "px)";
};
addEventListener("resize", () => { rowHigh = 0; firstDrawn = -1; scrollText(); });
at("text").addEventListener("scroll", scrollText);
let typing = 0;
at("text").addEventListener("input", () => { drawText(); clearTimeout(typing); typing = setTimeout(run, 200); });
at("text").addEventListener("keydown", (it) => {
  if (it.key !== "Enter" || it.shiftKey || it.ctrlKey || it.isComposing) return;
  const area = at("text"), before = area.value.slice(0, area.selectionStart), row = before.slice(before.lastIndexOf("\n") + 1);
  const indent = /^[ ]*/.exec(row)[0] + (/[{(\[]\s*$/.test(row) ? "    " : "");
  if (!indent) return;
  it.preventDefault();
  document.execCommand("insertText", false, "\n" + indent);
});

// ---- a run: the text and the script go, the transcript comes
const script = (end) => JSON.stringify({ end, events });
const budgetOf = (end) => Math.min(MOST_BUDGET, 1000000 + 100 * end);
const horizon = () => Math.min(MOST, Math.ceil((Math.max(time + AHEAD / 2, events.length ? events[events.length - 1].at + 1000 : 0) + 1) / AHEAD) * AHEAD);
// (what was asked for and isn't answered yet, from its first moment on, isn't shown: so nothing that was shown changes)
let held = Infinity, waits = Infinity;
const hold = () => { held = Math.min(held, time); waits = Math.min(waits, time); };
const run = async () => {
  if (busy) { again = true; return; }
  busy = true;
  do {
    again = false;
    const value = at("text").value, text = bytesOf(value), end = horizon(), begun = performance.now(), until = since;
    since = Infinity;
    waits = Infinity;
    try {
      const came = await fetch("/run/" + text.length + "/" + budgetOf(end), { method: "POST", headers: { "Content-Type": "application/octet-stream", "X-Play": secret }, body: new Blob([text, script(end)]) });
      if (!came.ok) throw new Error("answer " + came.status);
      const bytes = new Uint8Array(await came.arrayBuffer());
      sentText = value;
      held = waits;
      take(bytes, end, performance.now() - begun, until);
    } catch (error) { held = waits; at("state").textContent = "Nothing answers: is play still running? (" + error.message + ")"; stop(); }
  } while (again);
  busy = false;
};
const NOT_RUN = { 2: "It can't be run so: the budget isn't taken.", 11: "The script isn't taken: an entry of it breaks a rule.", 22: "It writes more than this page can take.", 23: "The program is too long.", 30: "There wasn't enough memory to run it." };
const take = (bytes, end, took, until) => {
  const feed = bytes.indexOf(10), head = new TextDecoder().decode(bytes.subarray(0, feed)).split(" ").map(Number);
  const told = new TextDecoder().decode(bytes.subarray(feed + 1, feed + 1 + head[1])), view = new TextDecoder().decode(bytes.subarray(feed + 1 + head[1]));
  if (head[0] === 10) { at("state").textContent = ""; refuse(told, view); return; }
  if (NOT_RUN[head[0]]) { at("state").textContent = NOT_RUN[head[0]]; stop(); return; }
  at("state").textContent = "computed in " + Math.round(took) + " ms";
  at("transcript").textContent = told;
  accept();
  // (what comes after a moment changes nothing that was shown up to it)
  const next = read(told, view, end, head[0]), upto = Math.min(until, answer.end, end);
  if (ran === sentText && pastOf(next, upto) !== pastOf(answer, upto)) broken += 1;
  ran = sentText;
  answer = next;
  if (time > answer.end && !playing) time = Math.min(time, answer.end);
  draw();
};
let ran = null, sentText = null, since = Infinity, broken = 0;
const pastOf = (it, upto) => JSON.stringify(it.lines.filter((one) => one.at <= upto));
const read = (told, view, end, status) => {
  const lines = [], rows = told.split("\n").filter(Boolean);
  let closing = null;
  for (const row of rows) {
    const found = /^(\d+) (display|serial|pin|radio) (.*)$/.exec(row), close = /^(end|panic|fault|budget) (\d+)/.exec(row);
    if (found) lines.push({ at: Number(found[1]), kind: found[2], rest: found[3] });
    else if (close) closing = { at: Number(close[2]), kind: close[1], line: row };
  }
  if (closing) { const row = view.split("\n").find((one) => one.startsWith(closing.line)); closing.says = row && row.includes("\t") ? row.split("\t")[1] : ""; }
  return { lines, closing, end, status, waits: closing && closing.kind === "end" && closing.line.endsWith("quiet") };
};
const refuse = (told, view) => {
  const [, , line, column] = told.trim().split(" ").map(Number), rows = view.split("\n").filter((row) => row.startsWith("  | ")).map((row) => row.slice(4));
  const source = at("text").value.split("\n")[line - 1] || "";
  // (columns count bytes)
  let bytes = 0, k = 0;
  for (const sign of source) { if (bytes >= column - 1) break; bytes += bytesOf(sign).length; k += sign.length; }
  mark = { line, at: k };
  at("sentence").textContent = rows[0] || told;
  at("example").textContent = rows.filter((row) => row.startsWith("for example")).join("\n");
  at("goto").textContent = "Go to line " + line + ", column " + column;
  at("refusal").hidden = false;
  at("text").setAttribute("aria-invalid", "true");
  at("board").classList.add("stale");
  stop();
  drawText();
};
const accept = () => {
  const was = mark;
  mark = null;
  at("refusal").hidden = true;
  at("text").removeAttribute("aria-invalid");
  at("board").classList.remove("stale");
  if (was) drawText();
};
at("goto").addEventListener("click", () => {
  if (!mark) return;
  const rows = at("text").value.split("\n");
  let from = mark.at;
  for (let i = 0; i < mark.line - 1; i += 1) from += rows[i].length + 1;
  at("text").focus();
  at("text").setSelectionRange(from, from);
});

// ---- what is shown at a moment
const lights = [];
for (let i = 0; i < 25; i += 1) { const it = make("span", undefined, "light"); lights.push(it); at("lights").append(it); }
const inWords = (rows) => rows.split("/").map((row, i) => [...row].map((it, k) => (it === "#" ? k + 1 : 0)).filter(Boolean).join(" ")).map((on, i) => on && "row " + (i + 1) + ": " + on).filter(Boolean).join(", ") || "dark";
let shownKey = "", said = "";
const draw = () => {
  const shown = Math.min(time, held), upto = answer.lines.filter((it) => it.at <= shown);
  const picture = upto.findLast((it) => it.kind === "display"), rows = picture ? picture.rest : "...../...../...../...../.....";
  const flat = rows.replaceAll("/", "");
  lights.forEach((it, i) => it.classList.toggle("on", flat[i] === "#"));
  at("lights").setAttribute("aria-label", "The lights: " + inWords(rows));
  const hex = upto.filter((it) => it.kind === "serial").map((it) => it.rest).join(""), bytes = new Uint8Array(hex.length / 2);
  for (let i = 0; i < bytes.length; i += 1) bytes[i] = parseInt(hex.slice(2 * i, 2 * i + 2), 16);
  const text = new TextDecoder().decode(bytes);
  if (text !== said) { said = text; at("serial").textContent = text; at("serial").scrollTop = at("serial").scrollHeight; }
  const sent = upto.filter((it) => it.kind === "radio").map((it) => it.at + " ms: " + it.rest).join("\n");
  if (at("sent").textContent !== sent) { at("sent").textContent = sent; at("sent").scrollTop = at("sent").scrollHeight; }
  const levels = new Map(answer.lines.filter((it) => it.kind === "pin").map((it) => [it.rest.split(" ")[0], "0"]));
  upto.filter((it) => it.kind === "pin").forEach((it) => { const [pin, level] = it.rest.split(" "); levels.set(pin, level); });
  const key = JSON.stringify([...levels]);
  if (key !== shownKey) { shownKey = key; at("pins").replaceChildren(...[...levels].sort((a, b) => a[0] - b[0]).map(([pin, level]) => make("span", "P" + pin + " " + (level === "1" ? "high" : "low"), level === "1" ? "high" : ""))); if (!levels.size) at("pins").append(make("span", "no pin was set")); }
  at("now").textContent = Math.floor(shown) + " of " + answer.end + " ms";
  at("time").max = String(answer.end);
  at("time").value = String(Math.floor(shown));
  at("time").setAttribute("aria-valuetext", Math.floor(shown) + " milliseconds");
  const close = answer.closing;
  let words = "";
  if (close && close.at <= shown) {
    if (answer.waits) words = "The board waits: nothing is left to do until something comes.";
    else if (close.kind !== "end") words = "It stopped at " + close.at + " ms: " + (close.says || close.line);
  }
  if (at("closing").textContent !== words) at("closing").textContent = words;
};
const drawScript = () => {
  at("entries").replaceChildren(...events.map((it, i) => {
    const row = make("tr"), what = it.do === "raise" ? (it.source === 200 ? "radio: " + it.value : "event " + it.source + ", " + it.value) : it.button + " " + it.do;
    const drop = make("button", "Remove");
    drop.type = "button";
    drop.setAttribute("aria-label", "Remove " + what + " at " + it.at + " ms");
    drop.addEventListener("click", () => { since = Math.min(since, it.at - 1); events.splice(i, 1); drawScript(); run(); });
    const last = make("td");
    last.append(drop);
    row.append(make("td", String(it.at)), make("td", what), last);
    return row;
  }));
  at("count").textContent = events.length === 0 ? "nothing happens" : events.length === 1 ? "1 entry" : events.length + " entries";
  drawMarks();
};
const drawMarks = () => {
  const svg = at("marks"), wide = svg.clientWidth || 600, LEFT = 48, x = (moment) => LEFT + ((wide - LEFT - 8) * moment) / Math.max(1, answer.end);
  svg.replaceChildren();
  const names = [["A", 12], ["B", 27], ["event", 42]];
  for (const [name, y] of names) svg.append(drawn("line", { x1: LEFT, x2: wide - 8, y1: y, y2: y, stroke: "var(--edge)" }), drawn("text", { x: 0, y: y + 4 }, name));
  const down = {};
  for (const it of events) {
    if (it.do === "down" && down[it.button] === undefined) down[it.button] = it.at;
    else if (it.do === "up" && down[it.button] !== undefined) { bar(it.button, down[it.button], it.at); delete down[it.button]; }
    else if (it.do === "raise") svg.append(drawn("circle", { cx: x(it.at), cy: 42, r: 4, fill: "var(--mark)" }));
  }
  for (const button in down) bar(button, down[button], answer.end);
  function bar(button, from, to) { svg.append(drawn("rect", { x: x(from), y: button === "A" ? 8 : 23, width: Math.max(3, x(to) - x(from)), height: 8, rx: 3, fill: "var(--mark)" })); }
};
addEventListener("resize", drawMarks);

// ---- the clock
const stop = () => { playing = false; at("play").textContent = "Play"; };
const tick = (now) => {
  if (!playing) return;
  const close = answer.closing, ends = close && close.kind !== "end";
  time += (now - last) * Number(at("speed").value);
  last = now;
  if (ends && Math.min(time, held) >= close.at) { time = close.at; stop(); draw(); return; }
  if (time > answer.end - AHEAD / 4 && !busy && answer.end < horizon()) run().then(drawMarks);
  if (time > answer.end) time = answer.end;
  draw();
  requestAnimationFrame(tick);
};
const start = () => {
  if (playing || mark) return;
  const close = answer.closing;
  if (close && close.kind !== "end" && time >= close.at) time = 0;
  playing = true;
  at("play").textContent = "Pause";
  last = performance.now();
  requestAnimationFrame(tick);
};
at("play").addEventListener("click", () => (playing ? stop() : start()));
at("rewind").addEventListener("click", () => { time = 0; draw(); });
at("anew").addEventListener("click", () => { time = 0; events = []; since = -1; drawScript(); run().then(() => { drawMarks(); start(); }); });
at("cut").addEventListener("click", () => { events = events.filter((it) => it.at <= time); since = Math.min(since, Math.floor(time)); drawScript(); run(); });
at("time").addEventListener("input", () => { stop(); time = Number(at("time").value); draw(); });

// ---- what comes from outside: one moment after all that is shown, so that nothing shown changes
const add = (entry, later = 0) => {
  if (mark) return;
  hold();
  const moment = Math.floor(time) + 1 + later;
  let k = events.length;
  while (k > 0 && events[k - 1].at > moment) k -= 1;
  events.splice(k, 0, { at: moment, ...entry });
  since = Math.min(since, moment - 1);
  drawScript();
  run().then(drawMarks);
};
// (a button that two hold, as B and A+B, goes up with the last of them)
const holders = { A: new Set(), B: new Set() };
const down = (names, it) => { start(); for (const name of names) { if (!holders[name].size) add({ do: "down", button: name }); holders[name].add(it); } it.classList.add("down"); };
const up = (names, it) => { for (const name of names) if (holders[name].delete(it) && !holders[name].size) add({ do: "up", button: name }); it.classList.remove("down"); };
for (const [id, names] of [["a", ["A"]], ["b", ["B"]], ["ab", ["A", "B"]]]) {
  const it = at(id);
  let came = false;
  it.addEventListener("pointerdown", (one) => { if (one.button) return; came = true; it.setPointerCapture(one.pointerId); down(names, it); });
  for (const kind of ["pointerup", "pointercancel"]) it.addEventListener(kind, () => up(names, it));
  it.addEventListener("keydown", (one) => { if ((one.key === " " || one.key === "Enter") && !one.repeat) { one.preventDefault(); came = true; down(names, it); } });
  it.addEventListener("keyup", (one) => { if (one.key === " " || one.key === "Enter") { one.preventDefault(); up(names, it); } });
  it.addEventListener("blur", () => up(names, it));
  // (a screen reader's click has neither)
  it.addEventListener("click", () => { if (!came) { start(); for (const name of names) add({ do: "down", button: name }); for (const name of names) add({ do: "up", button: name }, 100); } came = false; });
}
const typed = (one) => one.target.closest("textarea, input, select") || one.ctrlKey || one.metaKey || one.altKey;
addEventListener("keydown", (one) => { const name = one.key.toLowerCase(); if (typed(one) || one.repeat || (name !== "a" && name !== "b")) return; down([name.toUpperCase()], at(name)); });
addEventListener("keyup", (one) => { const name = one.key.toLowerCase(); if (name === "a" || name === "b") up([name.toUpperCase()], at(name)); });
at("raise").addEventListener("submit", (it) => { it.preventDefault(); start(); add({ do: "raise", source: Math.min(MOST_EVENT, Number(at("source").value)), value: Math.min(MOST_EVENT, Number(at("value").value)) }); });
at("radio").addEventListener("submit", (it) => { it.preventDefault(); start(); add({ do: "raise", source: 200, value: Math.min(MOST_EVENT, Number(at("number").value)) }); });

// ---- files
const asked = (path, more = {}) => fetch(path, { ...more, headers: { "X-Play": secret, ...more.headers } });
const say = (text) => { at("state").textContent = text; };
const send = (what, bytes) => asked("/save/" + what, { method: "POST", headers: { "Content-Type": "application/octet-stream", "X-Sum": sums[what] }, body: bytes });
const save = async (what, bytes) => {
  try {
    let came = await send(what, bytes);
    if (came.status === 409 && confirm("The file of the " + what + " was changed after this page read it. Put this in its place?")) {
      sums[what] = (await asked("/" + what)).headers.get("X-Sum") || "";
      came = await send(what, bytes);
    }
    if (came.ok) sums[what] = came.headers.get("X-Sum") || "";
    say(came.ok ? "saved: the " + what : came.status === 409 ? "not saved: the file was changed by somebody else" : "not saved: the file can't be written");
    return came.ok;
  } catch { say("Nothing answers: is play still running?"); return false; }
};
const scriptText = () => { const end = Math.max(Math.ceil(time), events.length ? events[events.length - 1].at : 0); return '{"end": ' + end + ', "events": [' + events.map((it) => "\n  " + JSON.stringify(it)).join(",") + "]}\n"; };
at("save").addEventListener("click", async () => { const text = at("text").value; if (await save("program", bytesOf(text))) keptText = text; });
at("savescript").addEventListener("click", async () => { const all = JSON.stringify(events); if (await save("script", bytesOf(scriptText()))) keptScript = all; });
addEventListener("beforeunload", (it) => { if (at("text").value !== keptText) it.preventDefault(); });
const EXAMPLES = JSON.parse(at("texts").textContent);
for (const name in EXAMPLES) { const it = make("option", name); it.value = name; at("examples").append(it); }
at("examples").addEventListener("change", () => {
  const text = EXAMPLES[at("examples").value];
  at("examples").value = "";
  if (text === undefined || (at("text").value !== keptText && !confirm("Open this in place of a program that isn't saved?"))) return;
  at("text").focus();
  at("text").select();
  document.execCommand("insertText", false, text);
  at("anew").click();
});
(async () => {
  const program = await asked("/program"), script = await asked("/script");
  sums.program = program.headers.get("X-Sum") || "";
  sums.script = script.headers.get("X-Sum") || "";
  at("text").value = keptText = program.ok ? await program.text() : "";
  at("name").textContent = decodeURIComponent(program.headers.get("X-Name") || "");
  if (script.ok) { try { events = JSON.parse(await script.text()).events; keptScript = JSON.stringify(events); } catch { say("The script's file is no JSON: it begins without entries."); events = []; } }
  drawText();
  drawScript();
  await run();
  drawMarks();
  draw();
})();
</script>
</body>
</html>
"##;

// Made by web/pack of the files in web/: change those.

/// The page from the page's first byte up to the words of the classes.
pub const UP_TO_CLASSES: &str = "\
<!doctype html>\n\
<html lang=\"en\">\n\
<head>\n\
<meta charset=\"utf-8\" />\n\
<meta name=\"viewport\" content=\"width=device-width, initial-scale=1\" />\n\
<meta\n\
http-equiv=\"Content-Security-Policy\"\n\
content=\"default-src 'none'; style-src 'unsafe-inline'; script-src 'unsafe-inline'\"\n\
/>\n\
<title>Memory, line by line</title>\n\
<style>\n\
/* The colours, for light and for dark: after Okabe and Ito, so that the colour-blind tell them\n\
apart. Those of --state-* are of a page frame's states, by their numbers. */\n\
:root {\n\
color-scheme: light dark;\n\
--back: light-dark(#ffffff, #14171c);\n\
--panel: light-dark(#f6f7f9, #1c2027);\n\
--ink: light-dark(#1b1f24, #e6e9ee);\n\
--soft: light-dark(#57606a, #9aa4b1);\n\
--rule: light-dark(#d0d7de, #343b46);\n\
--accent: light-dark(#0b5cad, #7cb8f2);\n\
--alarm: light-dark(#a40e26, #ff8f9c);\n\
--chosen: light-dark(#0b5cad22, #7cb8f233);\n\
--on-bright: #14171c;\n\
--on-dark: #ffffff;\n\
--hatch: #ffffffaa;\n\
--state-0: light-dark(#e8ecf0, #2b323b);\n\
--state-1: light-dark(#bcc4ce, #56606d);\n\
--state-2: light-dark(#6cbcee, #5fb4e8);\n\
--state-3: light-dark(#eba91c, #e5a420);\n\
--state-4: light-dark(#00916a, #14a67c);\n\
--state-5: light-dark(#c566a0, #d683b5);\n\
--state-6: light-dark(#cf5a0c, #e2702a);\n\
--reserved: light-dark(#f3f4f6, #20252d);\n\
--untouched: light-dark(#dfe3e9, #39424e);\n\
--guard: light-dark(#a40e26cc, #ff8f9ccc);\n\
--yellow: light-dark(#f0e442, #e9dd4c);\n\
--grey: #8f97a3;\n\
--blue: light-dark(#0072b2, #3b8fd0);\n\
}\n\
:root.paper { color-scheme: light; }\n\
* { box-sizing: border-box; print-color-adjust: exact; }\n\
[hidden] { display: none !important; }\n\
body { margin: 12px 20px 30px; background: var(--back); color: var(--ink); }\n\
body { font: 14px/1.45 system-ui, 'Segoe UI', 'DejaVu Sans', sans-serif; }\n\
h1 { margin: 0; font-size: 20px; }\n\
h2 { margin: 16px 0 6px; font-size: 16px; }\n\
h3 { margin: 12px 0 4px; font-size: 13px; }\n\
p, dd, dl { margin: 0; }\n\
code, .reference, .chip { font: 12.5px/1.4 ui-monospace, Consolas, 'DejaVu Sans Mono', monospace; }\n\
dl, table { font-size: 13px; }\n\
h3, th, nav, .quiet, .turn { color: var(--soft); }\n\
#warning, .not-ok { color: var(--alarm); font-weight: 600; }\n\
#legend ul, nav, .chips { display: flex; flex-wrap: wrap; align-items: center; gap: 4px 12px; }\n\
#legend ul { margin: 0 0 4px; padding: 0; gap: 2px 12px; list-style: none; font-size: 13px; }\n\
#legend .quiet { min-width: 74px; }\n\
nav { position: sticky; top: 0; z-index: 2; gap: 6px; padding: 8px 0; background: var(--back); }\n\
nav, th, td { border-bottom: 1px solid var(--rule); }\n\
button, select, nav input { padding: 3px 9px; border: 1px solid var(--rule); border-radius: 5px; }\n\
button, select, nav input { background: var(--panel); color: var(--ink); font: inherit; }\n\
#number { width: 92px; }\n\
#find { flex: 0 1 150px; }\n\
#slider { flex: 1 1 200px; accent-color: var(--accent); }\n\
main { display: grid; gap: 0 20px; padding-top: 8px; }\n\
main > * { min-width: 0; }\n\
@media (min-width: 1150px) {\n\
main { grid-template: repeat(5, auto) 1fr / 1fr 460px; }\n\
#side { position: sticky; top: var(--bar); grid-area: 1 / 2 / 7; overflow: auto; }\n\
#side { max-height: calc(100vh - var(--bar) - 8px); }\n\
}\n\
@media (max-width: 640px) {\n\
body { margin: 8px; }\n\
nav { position: static; }\n\
}\n\
canvas { display: block; width: 100%; touch-action: pan-y; }\n\
#sheet { position: relative; }\n\
#marks { position: absolute; inset: 0; pointer-events: none; }\n\
#tip { position: fixed; z-index: 3; max-width: 340px; padding: 4px 9px; pointer-events: none; }\n\
#tip { background: var(--ink); color: var(--back); }\n\
.unseen { position: absolute; clip-path: inset(50%); }\n\
.cells { display: inline-flex; flex-wrap: wrap; gap: 1px; vertical-align: middle; }\n\
.cell { width: 15px; height: 14px; padding: 0; border: 0; border-radius: 2px; }\n\
.cell:not(:disabled):hover { outline: 2px solid var(--ink); }\n\
.named { width: auto; min-width: 15px; font-size: 10px; color: var(--ink); }\n\
.copied { border-bottom: 3px solid var(--ink); }\n\
.guarded .cell, .guard {\n\
background-image: repeating-linear-gradient(45deg, #0000 0 3px, var(--guard) 3px 5px) !important;\n\
}\n\
.bar { display: flex; width: 256px; height: 12px; }\n\
#spaces { overflow-x: auto; }\n\
#spaces :is(th, td):is(:nth-child(2), :nth-child(n + 5):nth-child(-n + 8)) { text-align: right; }\n\
#sections :is(th, td):is(:nth-child(2), :nth-child(n + 4):nth-child(-n + 7)) { text-align: right; }\n\
#spaces :is(th, td):last-child, #sections :is(th, td):last-child { padding-left: 8px; }\n\
#spaces .inner { padding-left: 12px; color: var(--soft); }\n\
#spaces h3 { color: var(--ink); }\n\
#spaces td:not(:nth-child(3)) { white-space: nowrap; }\n\
#spaces td:nth-child(3) { min-width: 140px; }\n\
@media (max-width: 640px) {\n\
#spaces :is(table, tbody) { display: block; }\n\
#spaces :is(thead, td:empty) { display: none; }\n\
#spaces tr { display: flex; flex-wrap: wrap; gap: 0 10px; padding: 3px 0; }\n\
#spaces tr { border-bottom: 1px solid var(--rule); }\n\
#spaces td:nth-child(n) { min-width: 0; padding: 0; border: 0; }\n\
#spaces td:last-child { flex-basis: 100%; padding: 0; }\n\
#spaces td:nth-child(n + 5):nth-child(-n + 8)::before { content: '\\25a0\\a0'; }\n\
#spaces td:nth-child(5)::before { color: var(--state-4); }\n\
#spaces td:nth-child(6)::before { color: var(--state-2); }\n\
#spaces td:nth-child(7)::before { color: var(--state-5); }\n\
#spaces td:nth-child(8)::before { color: var(--untouched); }\n\
}\n\
#spaces, #sections, #slots, #frames, #faults { content-visibility: auto; }\n\
#spaces, #sections, #slots, #frames, #faults { contain-intrinsic-size: auto 400px; }\n\
i { display: inline-block; width: 12px; height: 12px; margin: 0 4px -1px 0; }\n\
i:not(.underline) { border: 1px solid var(--soft); }\n\
.underline { border-bottom: 3px solid var(--ink); }\n\
.state-5 { background: repeating-linear-gradient(45deg, #0000 0 3px, var(--hatch) 3px 5px); }\n\
.state-6 { background: repeating-linear-gradient(135deg, #0000 0 3px, var(--hatch) 3px 5px); }\n\
.moves { margin: 6px 0; padding-left: 10px; border-left: 3px solid var(--rule); list-style: none; }\n\
.turn { display: block; margin-bottom: 6px; font-size: 12px; }\n\
.reference { padding: 0; border: 0; border-bottom: 1px dotted; border-radius: 0; }\n\
.reference { background: none; color: var(--accent); }\n\
.chips { gap: 3px; }\n\
.chip { padding: 0 6px; border-radius: 3px; }\n\
dl { display: grid; grid-template-columns: minmax(116px, max-content) 1fr; gap: 3px 10px; }\n\
dt b { float: right; margin-left: 6px; }\n\
table { min-width: 70%; border-collapse: collapse; }\n\
th, td { padding: 2px 8px 2px 0; text-align: left; }\n\
#faults :is(th, td):not(:first-child) { text-align: right; }\n\
tr:has(.chosen) { background: var(--chosen); }\n\
#history { padding: 0 12px 10px; border: 1px solid var(--accent); background: var(--panel); }\n\
#history h2 { display: flex; justify-content: space-between; }\n\
.rows { max-height: 300px; overflow: auto; }\n\
@media print {\n\
nav, #marks, .screen-only { display: none; }\n\
main, #side, .rows { display: block; max-height: none; }\n\
canvas { height: auto !important; max-height: 18cm; object-fit: contain; object-position: 0 0; }\n\
}\n\
</style>\n\
</head>\n\
<body>\n\
<h1 id=\"title\">Memory, line by line</h1>\n\
<p id=\"facts\" class=\"quiet\">Reading the log ..</p>\n\
<p id=\"warning\" role=\"alert\" hidden></p>\n\
<noscript>This page draws with JavaScript, which is off. In words: mmshow tell.</noscript>\n\
<nav aria-label=\"Which line is shown\">\n\
<button data-press=\"ArrowLeft\" title=\"Left arrow\" aria-label=\"Line before\">&#9664;</button>\n\
<label>Line <input id=\"number\" type=\"number\" min=\"1\" /></label>\n\
<button data-press=\"ArrowRight\" title=\"Right arrow\" aria-label=\"Next line\">&#9654;</button>\n\
<input id=\"slider\" type=\"range\" min=\"1\" aria-label=\"Line\" />\n\
<button data-press=\"p\" title=\"Before (P)\" aria-label=\"Event before\">&#8249;</button>\n\
<select id=\"event\" aria-label=\"Kind of event\"></select>\n\
<button data-press=\"n\" title=\"Next (N)\" aria-label=\"Next event\">&#8250;</button>\n\
<label>Process <select id=\"space\"></select></label>\n\
<label>Addresses by <select id=\"tint\"></select></label>\n\
<label>Frames by <select id=\"paint\"></select></label>\n\
<input id=\"find\" type=\"search\" placeholder=\"1:0x10000, text\" aria-label=\"Find\" />\n\
<span class=\"quiet\">Zoom</span>\n\
<button data-press=\"-\" title=\"Zoom out (minus)\" aria-label=\"Zoom out\">&minus;</button>\n\
<button data-press=\"+\" title=\"Zoom in (plus)\" aria-label=\"Zoom in\">+</button>\n\
<button data-press=\"0\" title=\"All lines (0)\">All</button>\n\
</nav>\n\
<main>\n\
<section aria-label=\"Charts over the lines\">\n\
<div id=\"legend\" aria-label=\"What the colours mean\"></div>\n\
<canvas id=\"overview\" aria-hidden=\"true\"></canvas>\n\
<div id=\"sheet\">\n\
<canvas id=\"plot\" role=\"img\" aria-label=\"Charts; of a line the text beside\"></canvas>\n\
<canvas id=\"marks\" aria-hidden=\"true\"></canvas>\n\
</div>\n\
</section>\n\
<aside id=\"side\">\n\
<section id=\"line\" aria-label=\"This line\"></section>\n\
<section id=\"history\" aria-label=\"History\" hidden></section>\n\
<section id=\"state\" aria-label=\"After this line\"></section>\n\
<details class=\"screen-only\">\n\
<summary>Keys and words</summary>\n\
<ul>\n\
<li><b>&larr; &rarr; Home End</b> line before, next (Shift: ten), first, last</li>\n\
<li><b>N, P</b> next event, event before, of the chosen kind</li>\n\
<li><b>+ &minus; 0</b> zoom in, out, all (also: drag over charts; Ctrl and wheel)</li>\n\
<li><b>A, Esc</b> all page frames in the table; closes a history</li>\n\
<li><b>p1.16</b> private page 16 (address 0x10000) of process 1</li>\n\
<li><b>s0.2</b> third page of the control area 0, shared by its views</li>\n\
<li><b>1.16</b> the place: page 16 as process 1 sees it</li>\n\
<li><b>Hard fault</b> the page has to be read from the paging file or a file</li>\n\
<li><b>Soft fault</b> it still has a frame, listed, in transition or active</li>\n\
<li><b>Demand-zero fault</b> the first use of a page: it gets a zeroed frame</li>\n\
<li><b>Copy-on-write fault</b> first write to a copy view: a page of its own</li>\n\
<li><b>Repurposed</b> a standby frame is taken; its page is on the device</li>\n\
<li><b>Trimmed</b> a page leaves a working set: by trim or for want of frames</li>\n\
<li><b>Replaced</b> a page leaves a working set that is at its maximum</li>\n\
<li><b>Transition</b> valid nowhere, but a device request holds the frame</li>\n\
<li><b>Dashed, dotted</b> the most that there can be; the least of a working set</li>\n\
<li><b>Shades of a working set</b> ages 0, 1, 2 to 3, 4 to 7: the darkest is 0</li>\n\
<li><b>Commit charge</b> private pages, page-file sections, copy views</li>\n\
<li><b>&#10007; 48 + 7 &gt; 54</b> refused (1455): charged, asked for, the limit</li>\n\
<li><b>Keys</b> page-file pages that have one; a dot is what a charge line answered</li>\n\
<li><b>In memory</b> not valid here: on a list, in transition, or valid elsewhere</li>\n\
<li><b>R W X C</b> protections: read, write, execute, copy on write</li>\n\
<li><b>Dotted row</b> a run of pages reserved or never touched, folded</li>\n\
<li><b>Changed</b> written to since its bytes were last the same on the device</li>\n\
</ul>\n\
</details>\n\
</aside>\n\
<section id=\"spaces\" aria-label=\"Address spaces after this line\"></section>\n\
<section id=\"sections\" aria-label=\"Sections after this line\"></section>\n\
<section id=\"slots\" aria-label=\"Paging-file slots after this line\"></section>\n\
<section id=\"frames\" aria-label=\"Page frames after this line\"></section>\n\
<section id=\"faults\" aria-label=\"Faults in the whole log\"></section>\n\
</main>\n\
<p id=\"status\" class=\"unseen\" role=\"status\"></p>\n\
<div id=\"tip\" hidden></div>\n\
<script type=\"text/plain\" id=\"data-classes\">";

/// The page up to the classified moves.
pub const UP_TO_MOVES: &str = "\
</script>\n\
<script type=\"text/plain\" id=\"data-moves\">";

/// The page up to the lines of the script.
pub const UP_TO_SCRIPT: &str = "\
</script>\n\
<script type=\"text/plain\" id=\"data-script\">";

/// The page up to the answers.
pub const UP_TO_ANSWERS: &str = "\
</script>\n\
<script type=\"text/plain\" id=\"data-answers\">";

/// The page up to the name of the script's file.
pub const UP_TO_NAME: &str = "\
</script>\n\
<script type=\"text/plain\" id=\"data-name\">";

/// The page up to the packed observations.
pub const UP_TO_OBSERVATIONS: &str = "\
</script>\n\
<script type=\"text/plain\" id=\"data-observations\">";

/// The page up to the page's last byte.
pub const UP_TO_END: &str = "\
</script>\n\
<script>\n\
'use strict';\n\
const element = (id) => document.getElementById(id);\n\
const { format: spelled } = new Intl.NumberFormat('en');\n\
const capital = (text) => text[0].toUpperCase() + text.slice(1);\n\
const clamp = (value, least, most) => Math.max(least, Math.min(most, value));\n\
const mostOf = (values) => values.reduce((a, b) => Math.max(a, b), 0);\n\
const PAGE = 4096;\n\
const addressOf = (page) => '0x' + (page * PAGE).toString(16).toUpperCase();\n\
const pagesIn = (bytes) => Math.ceil(bytes / PAGE);\n\
function firstAt(list, holds) {\n\
let [low, high] = [0, list.length];\n\
while (low < high) {\n\
const middle = (low + high) >> 1;\n\
if (holds(list[middle])) high = middle;\n\
else low = middle + 1;\n\
}\n\
return low;\n\
}\n\
const lastUpTo = (list, line) => list[firstAt(list, (one) => one.line > line) - 1];\n\
function warn(text) {\n\
const shown = element('warning');\n\
shown.textContent = [shown.textContent, text].filter(Boolean).join(' ');\n\
shown.hidden = false;\n\
}\n\
addEventListener('error', (event) => warn('This page cannot be shown: ' + event.message));\n\
const OPERANDS = {\n\
frame: 'clear steal give read got bad map soil write wrote lost',\n\
page: 'add addfile drop give read',\n\
place: 'map unmap',\n\
home: 'write addfile',\n\
};\n\
const KINDS =\n\
'M machine 4, P process 3, N grow 1, a access 1, t thread 1, r trim 1, u unbind 1, ' +\n\
'w writer 0, z zeroer 0, i io 0, c call 0';\n\
const COUNTS = 'zeroed free standby modified active transition slots requests'.split(' ');\n\
class Move {\n\
constructor(found, line, frame, page, place, home) {\n\
this.class = found;\n\
this.line = line;\n\
this.frame = frame;\n\
this.page = page;\n\
this.place = place;\n\
this.home = home;\n\
this.was = this.state = FREE;\n\
this.since = 0;\n\
this.owner = null;\n\
this.isChanged = false;\n\
this.backing = '';\n\
this.shares = 0;\n\
this.request = NO_REQUEST;\n\
}\n\
beginAs(before) {\n\
this.was = this.state = before.state;\n\
this.since = before.since;\n\
this.owner = before.owner;\n\
this.isChanged = before.isChanged;\n\
this.backing = before.backing;\n\
this.shares = before.shares;\n\
this.request = before.request;\n\
}\n\
}\n\
class Thing {\n\
constructor(id, name, more) {\n\
Object.assign(this, { id, name, start: null, moves: [], ...more });\n\
}\n\
get now() {\n\
return this.moves.at(-1) ?? this.start;\n\
}\n\
after(line) {\n\
const { now } = this;\n\
if (!now || now.line <= line) return now;\n\
return this.moves[this.countUpTo(line) - 1] ?? this.start;\n\
}\n\
countUpTo(line) {\n\
return firstAt(this.moves, (move) => move.line > line);\n\
}\n\
}\n\
function newFrame(_, id) {\n\
const frame = new Thing(id, id);\n\
frame.start = new Move(null, 0, frame, null, null, '');\n\
frame.start.since = id;\n\
return frame;\n\
}\n\
function newPage(id, first, page) {\n\
const owner = Math.floor(first / 2);\n\
const [letter, pid] = first % 2 ? ['s', 0] : ['p', owner];\n\
return new Thing(id, `${letter}${owner}.${page}`, { pid, area: owner, page, isFile: false });\n\
}\n\
const newPlace = (id, pid, page) => new Thing(id, `${pid}.${page}`, { pid, page, uses: [] });\n\
const idOf = (first, second) => first * 2 ** 32 + second;\n\
const nameOfHome = (number) => (number % 2 ? 'block ' : 'slot ') + Math.floor(number / 2);\n\
function readClasses(text) {\n\
const classes = {};\n\
for (const row of text.split('\\n').filter(Boolean)) {\n\
const [code, word, group, ...sentence] = row.split(' ');\n\
classes[code] = { word, group, sentence: sentence.join(' ') };\n\
for (const name in OPERANDS) classes[code][name] = OPERANDS[name].split(' ').includes(word);\n\
}\n\
return classes;\n\
}\n\
class Reader {\n\
constructor(text) {\n\
this.text = text;\n\
this.at = 0;\n\
}\n\
get hasMore() {\n\
return this.at < this.text.length;\n\
}\n\
letter() {\n\
return this.text[this.at++];\n\
}\n\
number() {\n\
for (let value = 0, unit = 1; ; unit *= 32) {\n\
const digit = this.text.charCodeAt(this.at++) - 63;\n\
if (!(digit >= 0 && digit < 64)) throw new Error(`byte ${this.at} is no digit`);\n\
value += (digit & 31) * unit;\n\
if (digit < 32) return value;\n\
}\n\
}\n\
numbers(count) {\n\
return Array.from({ length: count }, () => this.number());\n\
}\n\
row() {\n\
const from = this.at;\n\
this.at = this.text.indexOf('\\n', from) + 1 || this.text.length + 1;\n\
return this.text.slice(from, this.at - 1);\n\
}\n\
digits() {\n\
for (let digits = ''; ; ) {\n\
const byte = this.text.charCodeAt(this.at++);\n\
if (byte < 61) return byte < 39 ? digits : digits + spelledDigits(byte - 39, 1);\n\
const pair = (byte - 61) * 66 + this.text.charCodeAt(this.at++) - 61;\n\
if (!(pair < 4096)) return digits + spelledDigits(pair - 4096, 2);\n\
digits += spelledDigits(pair, 3);\n\
}\n\
}\n\
}\n\
const spelledDigits = (value, count) => value.toString(16).toUpperCase().padStart(count, '0');\n\
function readScriptRow(reader) {\n\
const first = reader.letter();\n\
if (first === '\\t') return reader.row();\n\
const place = first.charCodeAt(0) - 65;\n\
if (place >= 0 && place < 20) {\n\
const word = place < 10 ? 'read' : 'write';\n\
return `${word} ${place % 10} 0x${reader.digits()} ${reader.digits()}`;\n\
}\n\
reader.at--;\n\
return reader.row();\n\
}\n\
function readAnswerRow(reader) {\n\
const first = reader.letter();\n\
if (first === '\\t') return reader.row();\n\
reader.at--;\n\
return first === ' ' || first === '\\n' ? 'ok' + reader.row() : 'ok ' + reader.digits();\n\
}\n\
function readRows(text, readRow) {\n\
const [rows, reader] = [[], new Reader(text)];\n\
while (reader.hasMore) rows.push(readRow(reader));\n\
return rows;\n\
}\n\
function readLog(reader, classes, script, answers) {\n\
const lines = [{ number: 0, text: '', answer: '', isOk: true }];\n\
const [moves, processes, pages, places] = [[], [], new Map(), new Map()];\n\
const log = { lines, moves, processes, pages, places, frames: [], machine: {} };\n\
const kinds = Object.fromEntries(KINDS.split(', ').map((kind) => [kind[0], kind.split(' ')]));\n\
function named(things, make) {\n\
const [first, second] = [reader.number(), reader.number()];\n\
const id = idOf(first, second);\n\
let thing = things.get(id);\n\
if (!thing) things.set(id, (thing = make(id, first, second)));\n\
return thing;\n\
}\n\
function readLine([, kind, count]) {\n\
const values = reader.numbers(count);\n\
const line = lines.length;\n\
const text = script[line - 1] ?? [kind, ...values].join(' ');\n\
const answer = answers[line - 1] ?? '';\n\
const isOk = !answer || answer.startsWith('ok') || (kind === 'io' && answer === 'none');\n\
lines.push({ number: line, kind, values, text, answer, isOk, aged: 0, counts: null });\n\
const [first, second, third, blocks] = values;\n\
if (kind === 'machine') {\n\
log.machine = { frames: first, slots: second, depth: third, blocks };\n\
log.frames = Array.from({ length: first }, newFrame);\n\
}\n\
if (kind === 'process') processes[first] = { pid: first, min: second, max: third, line };\n\
}\n\
function readMove(found) {\n\
const frame = found.frame ? log.frames[reader.number()] : null;\n\
const page = found.page ? named(pages, newPage) : null;\n\
const place = found.place ? named(places, newPlace) : null;\n\
const isFile = found.word === 'addfile';\n\
if (isFile) page.isFile = true;\n\
const home = found.home ? nameOfHome((isFile ? 2 : 1) * reader.number() + isFile) : '';\n\
moves.push(new Move(found, lines.length - 1, frame, page, place, home));\n\
}\n\
while (reader.hasMore) {\n\
const letter = reader.letter();\n\
if (letter === '=') lines.at(-1).counts = reader.numbers(COUNTS.length);\n\
else if (letter !== '\\n') readMove(classes[letter]);\n\
else if (reader.hasMore) readLine(kinds[reader.letter()]);\n\
}\n\
return log;\n\
}\n\
const textOf = (name) => element('data-' + name).textContent;\n\
function readData() {\n\
const script = readRows(textOf('script'), readScriptRow);\n\
const answers = readRows(textOf('answers'), readAnswerRow);\n\
const log = readLog(new Reader(textOf('moves')), readClasses(textOf('classes')), script, answers);\n\
const count = log.lines.length - 1;\n\
const name = textOf('name').trim().split(/[/\\\\]/).pop();\n\
const hasAges = script.length >= count && answers.length >= count;\n\
const early = { line: count + 1, text: script[count], answer: answers[count] ?? '' };\n\
return { ...log, count, name, hasAges, early: script.length > count ? early : null };\n\
}\n\
function readUses({ lines, places, hasAges }) {\n\
const pending = new Map();\n\
const waits = [];\n\
const placeAt = (pid, address) => places.get(idOf(pid, Math.floor(address / PAGE)));\n\
const note = (place, { number }) => place?.uses.push(number);\n\
function followThread(line, [word, name, process, ...access]) {\n\
if (line.answer === 'busy' || line.answer === 'error 6') return;\n\
const [thread, pid] = [Number(name), Number(process)];\n\
const text = `thread ${thread}: process ${pid}, ${access.join(' ')}`;\n\
if (word === 'begin') pending.set(thread, { pid, place: placeAt(pid, access[1]), text });\n\
const wait = pending.get(thread);\n\
if (wait && line.isOk) note(wait.place, line);\n\
if (wait) wait.answer = line.answer;\n\
if (!line.answer.startsWith('pending')) pending.delete(thread);\n\
}\n\
function endProcess(ended) {\n\
for (const [thread, { pid }] of pending) if (pid === ended) pending.delete(thread);\n\
}\n\
for (const line of hasAges ? lines.slice(1) : []) {\n\
const [word, first, address] = line.text.split(' ', 3);\n\
const isThread = word === 'begin' || word === 'resume';\n\
const pid = Number(first);\n\
if (isThread) followThread(line, line.text.split(' '));\n\
if (line.isOk) {\n\
if (word === 'read' || word === 'write' || word === 'exec') note(placeAt(pid, address), line);\n\
if (word === 'age') line.aged = pid;\n\
if (word === 'exit') endProcess(pid);\n\
}\n\
if (!isThread && word !== 'exit') continue;\n\
const threads = [...pending.values()].map(({ text, answer }) => `${text}, ${answer}`);\n\
waits.push({ line: line.number, threads });\n\
}\n\
return waits;\n\
}\n\
const AGES = [0, 1, 2, 4, Infinity];\n\
function agesOf({ places, lines, count }, { pid, aged }) {\n\
const ageLines = lines.filter((line) => line.aged === pid).map(({ number }) => number);\n\
const numbers = AGES.slice(1).map(() => new Int32Array(count + 2));\n\
function rest(from, to) {\n\
const reached = (age) => (age ? (ageLines[aged[from] + age - 1] ?? Infinity) : from);\n\
numbers.forEach((some, at) => {\n\
const [first, end] = [reached(AGES[at]), Math.min(to, reached(AGES[at + 1]))];\n\
if (first >= end) return;\n\
some[first]++;\n\
some[end]--;\n\
});\n\
}\n\
for (const { moves, uses } of [...places.values()].filter((place) => place.pid === pid)) {\n\
moves.forEach(({ class: { word }, line }, at) => {\n\
if (word !== 'map') return;\n\
const end = moves[at + 1]?.line ?? count + 1;\n\
const first = firstAt(uses, (use) => use > line);\n\
const used = [line, ...uses.slice(first, firstAt(uses, (use) => use >= end)), end];\n\
for (let one = 1; one < used.length; one++) rest(used[one - 1], used[one]);\n\
});\n\
}\n\
for (const some of numbers) {\n\
for (let line = 1; line <= count; line++) some[line] += some[line - 1];\n\
}\n\
return numbers;\n\
}\n\
const STATES = ['zeroed', 'free', 'standby', 'modified', 'active', 'being read', 'being written'];\n\
const [ZEROED, FREE, STANDBY, MODIFIED, ACTIVE, READING, WRITING] = STATES.keys();\n\
const LISTS = [ZEROED, FREE, STANDBY, MODIFIED];\n\
const REQUESTS = ['no I/O', 'being read', 'being written', 'being written, changed since'];\n\
const [NO_REQUEST, READ, WRITE, WRITE_AGAIN] = REQUESTS.keys();\n\
const isSlot = (home) => home.startsWith('slot');\n\
function replay({ machine, frames, processes, lines, moves, count }) {\n\
const columns = [];\n\
const column = () => columns[columns.push(new Int32Array(count + 1)) - 1];\n\
const names = [...COUNTS, ...TRACKS.map(({ group }) => group), 'allSlots', 'moves'];\n\
names.push('committed', 'privates', 'sections');\n\
const numbers = Object.fromEntries(names.map((name) => [name, column()]));\n\
for (const process of processes.filter(Boolean)) {\n\
Object.assign(process, { sizes: column(), aged: column(), faults: [], hard: [] });\n\
}\n\
const lengths = STATES.map((_, state) => numbers[COUNTS[Math.min(state, READING)]]);\n\
numbers.free[0] = machine.frames;\n\
numbers.slots[0] = numbers.allSlots[0] = machine.slots;\n\
let [line, next, clock] = [0, 0, frames.length];\n\
const MOVES = {\n\
add: (move) => commit(move.page, 1),\n\
addfile: () => {},\n\
drop(move) {\n\
if (!move.page.isFile) commit(move.page, -1);\n\
if (!move.frame) dropSlot(move.home);\n\
else if (move.request) move.owner = null;\n\
else forget(move);\n\
},\n\
clear: (move) => join(move, ZEROED),\n\
steal: free,\n\
give: (move) => join(own(move, move.page, true, ''), MODIFIED),\n\
read: (move) => beginRequest(own(move, move.page, false, move.home), READ),\n\
got: (move) => endRequest(move, settle),\n\
bad: (move) => endRequest(move, free),\n\
map: (move) => share(move, 1),\n\
unmap: (move) => share(move, -1),\n\
soil(move) {\n\
if (move.request) move.request = WRITE_AGAIN;\n\
else differ(move);\n\
},\n\
write(move) {\n\
move.backing = move.home;\n\
if (isSlot(move.home)) numbers.slots[line]--;\n\
beginRequest(move, WRITE);\n\
},\n\
wrote(move) {\n\
if (move.request === WRITE) move.isChanged = false;\n\
else differ(move);\n\
endRequest(move, settle);\n\
},\n\
lost: (move) => endRequest(differ(move), settle),\n\
};\n\
function commit(page, more) {\n\
numbers.committed[line] += more;\n\
if (more > 0) page.isCopy = page.pid > 0 && /access|thread/.test(lines[line].kind);\n\
if (!page.isCopy) numbers[page.pid ? 'privates' : 'sections'][line] += more;\n\
}\n\
function own(move, owner, isChanged, backing) {\n\
move.owner = owner;\n\
move.isChanged = isChanged;\n\
move.backing = backing;\n\
return move;\n\
}\n\
function join(move, state) {\n\
move.state = state;\n\
move.since = clock++;\n\
}\n\
function free(move) {\n\
join(own(move, null, false, ''), FREE);\n\
}\n\
function forget(move) {\n\
dropSlot(move.backing);\n\
free(move);\n\
}\n\
function dropSlot(home) {\n\
if (isSlot(home)) numbers.slots[line]++;\n\
}\n\
function differ(move) {\n\
dropSlot(move.backing);\n\
return own(move, move.owner, true, isSlot(move.backing) ? '' : move.backing);\n\
}\n\
function share(move, more) {\n\
move.shares += more;\n\
processes[move.place.pid].sizes[line] += more;\n\
settle(move);\n\
}\n\
function beginRequest(move, request) {\n\
move.request = request;\n\
move.since = clock++;\n\
numbers.requests[line]++;\n\
settle(move);\n\
}\n\
function endRequest(move, goOn) {\n\
move.request = NO_REQUEST;\n\
numbers.requests[line]--;\n\
if (move.owner) goOn(move);\n\
else forget(move);\n\
}\n\
function settle(move) {\n\
if (move.shares) move.state = ACTIVE;\n\
else if (move.request) move.state = move.request === READ ? READING : WRITING;\n\
else join(move, move.isChanged ? MODIFIED : STANDBY);\n\
}\n\
function make(move) {\n\
const { page, place } = move;\n\
const { word, group } = move.class;\n\
if (word === 'unmap') move.frame = place.now.frame;\n\
if (word === 'drop' && page.now.owner) move.frame = page.now.frame;\n\
if (word === 'read' || (word === 'drop' && !move.frame)) move.home = page.now.home;\n\
if (move.frame) {\n\
move.beginAs(move.frame.now);\n\
move.page ??= move.owner;\n\
move.home ||= move.backing;\n\
}\n\
MOVES[word](move);\n\
move.frame?.moves.push(move);\n\
move.page?.moves.push(move);\n\
place?.moves.push(move);\n\
numbers.moves[line]++;\n\
if (group in numbers) numbers[group][line]++;\n\
if (FAULTS.some((fault) => fault.group === group)) {\n\
const process = processes[lines[line].values[0]];\n\
process.faults.push(line);\n\
if (group === 'hard') process.hard.push(line);\n\
}\n\
if (!move.frame) return;\n\
lengths[move.was][line]--;\n\
lengths[move.state][line]++;\n\
}\n\
for (const { number, kind, values, isOk, aged } of lines.slice(1)) {\n\
line = number;\n\
for (const one of columns) one[line] = one[line - 1];\n\
if (kind === 'grow') numbers.allSlots[line] += values[0];\n\
if (kind === 'grow') numbers.slots[line] += values[0];\n\
while (moves[next]?.line === line) make(moves[next++]);\n\
if (aged) processes[aged].aged[line]++;\n\
if (!isOk) numbers.refused[line]++;\n\
}\n\
return numbers;\n\
}\n\
const OLDEST = 7;\n\
const TRACKS = [\n\
['hard', '--state-5', '\\u25b2', 'hard fault*', 'Hard faults'],\n\
['soft', '--state-4', '\\u25b3', 'soft fault*', 'Soft faults'],\n\
['zero', '--state-4', '\\u25cb', 'demand-zero fault*', 'Demand-zero faults'],\n\
['copy', '--state-4', '\\u25c6', 'copy-on-write fault*', 'Copy-on-write faults'],\n\
['collided', '--state-5', '\\u25ce', 'collided fault*', 'Collided faults'],\n\
['steal', '--state-2', '\\u00d7', 'standby page* repurposed', 'Standby repurposed'],\n\
['trim', '--state-3', '\\u25bd', 'page* trimmed', 'Pages trimmed'],\n\
['replace', '--state-3', '\\u21c4', 'page* replaced in a full working set', 'Replaced: set full'],\n\
['write', '--state-6', '\\u25bc', 'write-out* begun', 'Write-outs begun'],\n\
['failed', '--alarm', '!', 'failed device call*', 'Device calls failed'],\n\
['refused', '--alarm', '\\u2717', 'answer* other than ok', 'Answers other than ok'],\n\
].map(([group, tint, sign, words, title]) => ({ group, tint, sign, words, title }));\n\
const FAULTS = TRACKS.slice(0, 5);\n\
function surveyLog(data) {\n\
const numbers = replay(data);\n\
const wrong = data.lines.find(({ number, counts }) =>\n\
counts?.some((count, which) => count !== numbers[COUNTS[which]][number]),\n\
);\n\
const charges = data.lines.filter(({ text, answer }) => text === 'charge' && /^ok /.test(answer));\n\
return {\n\
numbers,\n\
tracks: TRACKS.filter(({ group }) => numbers[group][data.count]),\n\
charges: charges.map(({ number, answer }) => [number, Number(answer.split(' ')[1])]),\n\
trouble: wrong\n\
? `The counts after line ${wrong.number} are not those that mmshow wrote: ` +\n\
'do not trust the charts from there on.'\n\
: '',\n\
movesOf: (line) => data.moves.slice(numbers.moves[line - 1], numbers.moves[line]),\n\
stateAfter: (line) => stateAfter(data, numbers, line),\n\
};\n\
}\n\
function stateAfter({ frames, pages, places, processes }, numbers, line) {\n\
function after(things, has) {\n\
const found = [];\n\
for (const thing of things) {\n\
const stand = thing.after(line);\n\
if (stand && has(stand)) found.push(stand);\n\
}\n\
return found;\n\
}\n\
const stands = after(frames, () => true);\n\
const inOrder = (wanted) => stands.filter(wanted).sort((a, b) => a.since - b.since);\n\
function pageOf({ place: { pid, page, uses }, frame, line: first }) {\n\
const { aged } = processes[pid];\n\
const used = uses[firstAt(uses, (use) => use > line) - 1] ?? 0;\n\
return { pid, page, frame, age: Math.min(OLDEST, aged[line] - aged[Math.max(used, first)]) };\n\
}\n\
const valid = after(places.values(), (move) => move.class.word === 'map').map(pageOf);\n\
valid.sort((a, b) => b.age - a.age || a.page - b.page);\n\
return {\n\
frames: stands,\n\
away: after(pages.values(), (move) => !move.owner && move.class.word !== 'drop'),\n\
lists: LISTS.map((list) => inOrder(({ state }) => state === list)),\n\
requests: inOrder(({ request }) => request),\n\
sets: processes.map((process) => valid.filter(({ pid }) => pid === process.pid)),\n\
allSlots: numbers.allSlots[line],\n\
slots: numbers.slots[line],\n\
};\n\
}\n\
function eventsIn({ tracks, numbers }, first, last) {\n\
return tracks.flatMap(({ group, words }) => {\n\
const count = numbers[group][last] - numbers[group][first - 1];\n\
return count ? [spelled(count) + ' ' + words.replace('*', count > 1 ? 's' : '')] : [];\n\
});\n\
}\n\
const VALUES = {\n\
i: ({ place }) => place.pid,\n\
b: ({ home }) => home.slice('block '.length),\n\
home: ({ home }) => home || 'zeros',\n\
freed: freedBy,\n\
goes: goesTo,\n\
unslot: ({ home }) => (isSlot(home) ? `; its ${home} is free` : ''),\n\
};\n\
function freedBy({ frame, home }) {\n\
if (frame) return `; frame ${frame.name} is free`;\n\
return isSlot(home) ? `; ${home} is free` : '';\n\
}\n\
function goesTo({ was, state, class: { word } }) {\n\
if (state === ACTIVE) return word === 'unmap' ? ' stays active' : '';\n\
if (state === WRITING) return ' is being written still';\n\
const isListed = state === STANDBY || state === MODIFIED || state === FREE;\n\
return isListed && state !== was ? `; it goes to the ${STATES[state]} list` : '';\n\
}\n\
function sentenceOf(move, refer = (kind, thing, text) => text) {\n\
const { frame, page, place } = move;\n\
return move.class.sentence.replace(/(frame )?\\{(\\w+)\\}/g, (found, before = '', name) => {\n\
if (name === 'f') return refer('frame', frame, before + frame.name);\n\
if (name === 'k') return page ? refer('page', page, page.name) : '-';\n\
if (name === 'p') return refer('place', place, place.name);\n\
return before + VALUES[name](move);\n\
});\n\
}\n\
const readNames = (text) =>\n\
text.split(' ').map((word) => [Number('0x' + word.split('=')[0]), word.split('=')[1]]);\n\
const MEMORY = readNames(\n\
'1000=MEM_COMMIT 2000=MEM_RESERVE 4000=MEM_DECOMMIT 8000=MEM_RELEASE 200000=MEM_WRITE_WATCH',\n\
);\n\
const PROTECTION = readNames(\n\
'1=PAGE_NOACCESS 2=PAGE_READONLY 4=PAGE_READWRITE 8=PAGE_WRITECOPY 10=PAGE_EXECUTE ' +\n\
'20=PAGE_EXECUTE_READ 40=PAGE_EXECUTE_READWRITE 80=PAGE_EXECUTE_WRITECOPY 100=PAGE_GUARD',\n\
);\n\
const SECTION = [...PROTECTION, ...readNames('4000000=SEC_RESERVE 8000000=SEC_COMMIT')];\n\
const VIEW = readNames(\n\
'1=FILE_MAP_COPY 2=FILE_MAP_WRITE 4=FILE_MAP_READ F001F=FILE_MAP_ALL_ACCESS',\n\
);\n\
const STATE = readNames('1000=MEM_COMMIT 2000=MEM_RESERVE 10000=MEM_FREE');\n\
const TYPE = readNames('20000=MEM_PRIVATE 40000=MEM_MAPPED');\n\
const CODES = readNames(\n\
'2=ERROR_FILE_NOT_FOUND 5=ERROR_ACCESS_DENIED 6=ERROR_INVALID_HANDLE ' +\n\
'57=ERROR_INVALID_PARAMETER B7=ERROR_ALREADY_EXISTS 1E7=ERROR_INVALID_ADDRESS ' +\n\
'46C=ERROR_MAPPED_ALIGNMENT 5AF=ERROR_COMMITMENT_LIMIT ' +\n\
'80000001=STATUS_GUARD_PAGE_VIOLATION C0000005=STATUS_ACCESS_VIOLATION ' +\n\
'C0000006=STATUS_IN_PAGE_ERROR C00000FD=STATUS_STACK_OVERFLOW',\n\
);\n\
const PLACES = {\n\
alloc: [6, { 4: MEMORY, 5: PROTECTION }],\n\
free: [5, { 4: MEMORY }],\n\
protect: [5, { 4: PROTECTION }],\n\
create: [5, { 3: SECTION }],\n\
createfile: [5, { 3: SECTION }],\n\
map: [7, { 3: VIEW }],\n\
};\n\
function nameOf(names, number) {\n\
const whole = names.find(([bits]) => bits === number);\n\
if (whole) return whole[1];\n\
const found = names.filter(([bit]) => number & bit);\n\
const sum = found.reduce((all, [bit]) => all + bit, 0);\n\
return number && sum === number ? found.map(([, name]) => name).join('|') : '';\n\
}\n\
const bracket = (names) => (names.some(Boolean) ? `[${names.filter(Boolean).join(', ')}]` : '');\n\
function namesInLine(text) {\n\
const words = text.split(' ');\n\
const [count, places] = Object.hasOwn(PLACES, words[0]) ? PLACES[words[0]] : [0, {}];\n\
if (words.length !== count) return '';\n\
return bracket(Object.keys(places).map((at) => nameOf(places[at], Number(words[at]))));\n\
}\n\
function namesInAnswer(text, answer) {\n\
const words = answer.split(' ');\n\
if (/^(error|raise) \\w+$/.test(answer)) return bracket([nameOf(CODES, Number(words[1]))]);\n\
if (!text.startsWith('query ') || words.length !== 8) return '';\n\
const [state, protection, type] = words.slice(5).map(Number);\n\
return bracket([nameOf(STATE, state), nameOf(PROTECTION, protection), nameOf(TYPE, type)]);\n\
}\n\
const [COMMITTED, RESERVED] = [0x1000, 0x2000];\n\
const [PRIVATE, MAPPED] = [0x20000, 0x40000];\n\
const [GUARD, COPY] = [0x100, 0x88];\n\
class Space {\n\
constructor(pid) {\n\
Object.assign(this, { pid, rects: [], open: [], cut: null, lives: new Map() });\n\
}\n\
lay(line, from, to, stand) {\n\
const first = firstAt(this.open, (rect) => rect.to > from);\n\
const last = firstAt(this.open, (rect) => rect.from >= to);\n\
const kept = stand ? [{ from, to, since: line, until: Infinity, stand }] : [];\n\
for (const old of this.open.slice(first, last)) {\n\
const { from: low, to: high } = old;\n\
if (low < from) kept.unshift({ ...old, to: from });\n\
if (high > to) kept.push({ ...old, from: to });\n\
Object.assign(old, { from: Math.max(low, from), to: Math.min(high, to), until: line });\n\
if (old.since < line) this.rects.push(old);\n\
}\n\
this.open.splice(first, last - first, ...kept);\n\
}\n\
end() {\n\
const rects = this.rects.concat(this.open).sort((a, b) => a.since - b.since);\n\
const edges = [...new Set(rects.flatMap(({ from, to }) => [from, to]))].sort((a, b) => a - b);\n\
this.cut = edges.map((from, at) => ({ from, to: edges[at + 1] ?? from, rects: [] }));\n\
for (const rect of rects) {\n\
let at = firstAt(this.cut, ({ from }) => from >= rect.from);\n\
for (; this.cut[at].from < rect.to; at++) this.cut[at].rects.push(rect);\n\
}\n\
this.cut = this.cut.filter((part) => part.rects.length);\n\
}\n\
rectsAt(page) {\n\
const part = this.cut[firstAt(this.cut, ({ to }) => to > page)];\n\
return part && part.from <= page ? part.rects : [];\n\
}\n\
standAt(page, line) {\n\
return standIn(this.rectsAt(page), line);\n\
}\n\
after(line) {\n\
const regions = [];\n\
for (const { from, to, rects } of this.cut) {\n\
const stand = standIn(rects, line);\n\
const last = regions.at(-1);\n\
if (stand && last?.stand === stand && last.to === from) last.to = to;\n\
else if (stand) regions.push({ from, to, stand });\n\
}\n\
return regions;\n\
}\n\
}\n\
const standIn = (rects, line) =>\n\
rects.find(({ since, until }) => since <= line && line < until)?.stand;\n\
function readObservations(reader, charge, region) {\n\
const KINDS_OF_REGIONS = {\n\
f: [],\n\
r: [RESERVED, PRIVATE],\n\
R: [RESERVED, MAPPED],\n\
c: [COMMITTED, PRIVATE],\n\
C: [COMMITTED, MAPPED],\n\
};\n\
let [line, end] = [0, 0];\n\
function readRegion(kind) {\n\
const [pid, step, pages] = reader.numbers(3);\n\
const from = end + (step % 2 ? -(step + 1) / 2 : step / 2);\n\
end = from + pages;\n\
const [state, type] = kind;\n\
if (!state) return region(line, pid, from, end, null);\n\
const [below, first] = reader.numbers(2);\n\
const protection = state === COMMITTED ? reader.number() : 0;\n\
return region(line, pid, from, end, { state, type, protection, base: from - below, first });\n\
}\n\
while (reader.hasMore) {\n\
const letter = reader.letter();\n\
if (letter === 'q') charge(line, ...reader.numbers(2));\n\
else if (letter !== '\\n') readRegion(KINDS_OF_REGIONS[letter]);\n\
else if (reader.hasMore) line += reader.number();\n\
}\n\
}\n\
function readSpaces(data) {\n\
const { processes, count, moves } = data;\n\
const spaces = processes.map(({ pid }) => new Space(pid));\n\
const stands = new Map();\n\
const charges = [];\n\
let isObserved = false;\n\
let isStrange = false;\n\
function standOf(numbers) {\n\
const name = Object.values(numbers).join();\n\
if (!stands.has(name)) stands.set(name, { id: stands.size, ...numbers });\n\
return stands.get(name);\n\
}\n\
function region(line, pid, from, to, numbers) {\n\
if (!(processes[pid]?.line <= line && line <= count)) {\n\
isStrange = true;\n\
return;\n\
}\n\
spaces[pid].lay(line, from, to, numbers && standOf(numbers));\n\
isObserved = true;\n\
}\n\
readObservations(\n\
new Reader(textOf('observations')),\n\
(line, charged, limit) => charges.push({ line, charged, limit }),\n\
region,\n\
);\n\
function layByMoves() {\n\
const stand = standOf({ state: COMMITTED, type: PRIVATE, protection: 0, base: 0, first: 0 });\n\
const used = new Set();\n\
for (const { class: { word }, line, page, place } of moves) {\n\
const thing = word === 'map' ? place : /^(add|drop)$/.test(word) && page.pid ? page : null;\n\
if (!thing) continue;\n\
const id = idOf(thing.pid, thing.page);\n\
if (word === 'drop') spaces[thing.pid].lay(line, thing.page, thing.page + 1, null);\n\
else if (!used.has(id)) spaces[thing.pid].lay(line, thing.page, thing.page + 1, stand);\n\
if (word === 'drop') used.delete(id);\n\
else used.add(id);\n\
}\n\
}\n\
if (!isObserved) layByMoves();\n\
for (const space of spaces) space?.end();\n\
function column(name) {\n\
const values = new Int32Array(count + 1);\n\
charges.forEach((one, at) => values.fill(one[name], one.line, charges[at + 1]?.line));\n\
return charges.length ? values : null;\n\
}\n\
const [charge, limit] = [column('charged'), column('limit')];\n\
return { spaces, isObserved, isStrange, charge, limit, stands };\n\
}\n\
const MOST_STRIPS = 6;\n\
function chooseProcesses({ data: { processes }, view, space: { spaces } }) {\n\
const activity = ({ pid, cut }) => cut.length + processes[pid].sizes.at(-1);\n\
const busiest = spaces\n\
.map((one) => ({ pid: one.pid, activity: activity(one) }))\n\
.sort((a, b) => b.activity - a.activity || a.pid - b.pid)\n\
.slice(0, MOST_STRIPS)\n\
.map(({ pid }) => pid)\n\
.sort((a, b) => a - b);\n\
const all = processes.length > MOST_STRIPS + 3 ? busiest : Object.keys(processes).map(Number);\n\
return () => (view.space ? [view.space] : all);\n\
}\n\
function readSections({ lines }) {\n\
const [files, named, handles, sections, uses] = [new Map(), new Map(), new Map(), [], []];\n\
let area = 0;\n\
const handleOf = (pid, handle) => `${Number(pid)}.${Number(handle)}`;\n\
function newSection(name, pages, line) {\n\
sections.push({ area, name: name === '-' ? 'section ' + area : name, pages, line });\n\
area++;\n\
return sections.at(-1);\n\
}\n\
function hold(pid, name, [, handle, code], make) {\n\
const section = (code === '183' && named.get(name)) || make();\n\
if (name !== '-') named.set(name, section);\n\
handles.set(handleOf(pid, handle), section);\n\
}\n\
function view([pid, handle, access, offset, length], [, base], line) {\n\
const section = handles.get(handleOf(pid, handle));\n\
const pages = pagesIn(Number(length)) || (section?.pages ?? 0) - offset / PAGE;\n\
const more = { section, offset: offset / PAGE, isCopy: Number(access) === 1 };\n\
begin(pid, base, line, { pages, ...more });\n\
}\n\
function begin(pid, base, line, more) {\n\
uses.push({ pid: Number(pid), base: base / PAGE, line, until: Infinity, ...more });\n\
}\n\
function end(pid, address, line) {\n\
const at = Math.floor(address / PAGE);\n\
for (const use of uses) {\n\
const isMeant = address === undefined || (at >= use.base && at < use.base + use.pages);\n\
if (use.pid === Number(pid) && use.until > line && isMeant) use.until = line;\n\
}\n\
}\n\
const WORDS = {\n\
file: ([name, pages], answer, line) => files.set(name, newSection(name, Number(pages), line)),\n\
create: ([pid, size, , name], answer, line) =>\n\
hold(pid, name, answer, () => newSection(name, pagesIn(Number(size)), line)),\n\
createfile: ([pid, file, , name], answer) => hold(pid, name, answer, () => files.get(file)),\n\
open: ([pid, name], [, handle]) => handles.set(handleOf(pid, handle), named.get(name)),\n\
map: view,\n\
stack: ([thread, pid], [, base, size], line) =>\n\
begin(pid, base, line, { thread: Number(thread), pages: pagesIn(Number(size)) }),\n\
unmap: ([pid, address], answer, line) => end(pid, address, line),\n\
free: ([pid, address, , type], answer, line) =>\n\
Number(type) === 0x8000 && end(pid, address, line),\n\
exit: ([pid], answer, line) => end(pid, undefined, line),\n\
};\n\
for (const { number, text, answer } of lines) {\n\
const [word, ...rest] = text.split(' ');\n\
const isKnown = answer.startsWith('ok') && Object.hasOwn(WORDS, word);\n\
if (isKnown) WORDS[word](rest, answer.split(' '), number);\n\
}\n\
const bases = Map.groupBy(uses, ({ pid, base }) => idOf(pid, base));\n\
return {\n\
sections,\n\
handleAt: (pid, handle) => handles.get(handleOf(pid, handle)),\n\
useOf: (pid, base, line) => bases.get(idOf(pid, base))?.findLast((use) => use.line <= line),\n\
viewsOf: (section, line) =>\n\
uses.filter((use) => use.section === section && use.line <= line && line < use.until),\n\
useAt: (pid, page, line) =>\n\
uses.findLast((use) => {\n\
const isThere = use.pid === pid && page >= use.base && page < use.base + use.pages;\n\
return isThere && use.line <= line;\n\
}),\n\
};\n\
}\n\
const nameOfUse = (use) => (use?.section ? use.section.name : use ? 'stack ' + use.thread : '');\n\
const PAGE_KINDS = ['none', 'reserved', 'on disk', 'not touched', 'in memory', 'valid'];\n\
const [, IS_RESERVED, ON_DISK, UNTOUCHED, IN_MEMORY, VALID] = PAGE_KINDS.keys();\n\
const isLive = (page, line) => (page?.after(line)?.class.word ?? 'drop') !== 'drop';\n\
function makePages({ data, space, sections: { useOf, useAt } }) {\n\
const { pages, places } = data;\n\
const { spaces, stands, isObserved } = space;\n\
const standsById = [...stands.values()];\n\
const sharedKey = ({ section, offset, base }, page) =>\n\
section && pages.get(idOf(2 * section.area + 1, page - base + offset));\n\
function thingsAt(pid, page, stand, line) {\n\
const [place, own] = [places.get(idOf(pid, page)), pages.get(idOf(2 * pid, page))];\n\
if (isObserved && stand.type !== MAPPED) return { place, own };\n\
const use = isObserved ? useOf(pid, stand.base, line) : useAt(pid, page, line);\n\
const isShared = (move) => move.page && !move.page.pid;\n\
const shared = use ? sharedKey(use, page) : place?.moves.find(isShared)?.page;\n\
return { place, own, shared };\n\
}\n\
const keyIn = ({ own, shared }, line) => (isLive(own, line) ? own : shared);\n\
function kindOf(things, line) {\n\
if (things.place?.after(line)?.class.word === 'map') return VALID;\n\
const kind = keyKind(keyIn(things, line), line);\n\
return kind === VALID ? IN_MEMORY : kind;\n\
}\n\
const kindAt = (pid, page, stand, line) => kindOf(thingsAt(pid, page, stand, line), line);\n\
function keyKind(key, line) {\n\
if (!isLive(key, line)) return UNTOUCHED;\n\
const { owner, shares, home } = key.after(line);\n\
if (owner) return shares ? VALID : IN_MEMORY;\n\
return home ? ON_DISK : UNTOUCHED;\n\
}\n\
const codeOf = (kind, stand, isCopied) => kind + 8 * isCopied + 16 * stand.id;\n\
const decode = (code) => ({\n\
kind: code & 7,\n\
isCopied: Boolean(code & 8),\n\
stand: standsById[code >> 4],\n\
});\n\
const isCopiedIn = ({ own }, line) => Boolean(own?.isCopy) && isLive(own, line);\n\
function lifeOf(space, page) {\n\
const known = space.lives.get(page);\n\
if (known) return known;\n\
const [lines, codes] = [[], []];\n\
function push(line, code) {\n\
if (lines.at(-1) === line) codes[codes.length - 1] = code;\n\
else if (codes.at(-1) !== code) codes[lines.push(line) - 1] = code;\n\
}\n\
function pushStands({ since, until, stand }) {\n\
const things = thingsAt(space.pid, page, stand, since);\n\
for (const line of changesIn(things, since, until)) {\n\
push(line, codeOf(kindOf(things, line), stand, isCopiedIn(things, line)));\n\
}\n\
}\n\
for (const rect of space.rectsAt(page)) {\n\
if (rect.stand.state === RESERVED) push(rect.since, codeOf(IS_RESERVED, rect.stand, false));\n\
else pushStands(rect);\n\
push(rect.until, -1);\n\
}\n\
const life = { lines, codes };\n\
space.lives.set(page, life);\n\
return life;\n\
}\n\
function changesIn(things, since, until) {\n\
const changes = new Set([since]);\n\
for (const thing of Object.values(things)) {\n\
for (let at = thing?.countUpTo(since); thing?.moves[at]?.line < until; at++) {\n\
changes.add(thing.moves[at].line);\n\
}\n\
}\n\
return [...changes].sort((a, b) => a - b);\n\
}\n\
function eachStretch(space, page, { first, last }, each) {\n\
const { lines, codes } = lifeOf(space, page);\n\
let at = Math.max(0, firstAt(lines, (line) => line > first) - 1);\n\
for (; lines[at] <= last; at++) {\n\
const from = Math.max(first, lines[at]);\n\
const to = Math.min(last + 1, lines[at + 1] ?? Infinity);\n\
if (codes[at] >= 0 && to > from) each(codes[at], from, to);\n\
}\n\
}\n\
function after(pid, page, line) {\n\
const stand = spaces[pid]?.standAt(page, line);\n\
if (!stand) return null;\n\
const things = thingsAt(pid, page, stand, line);\n\
const isReserved = stand.state === RESERVED;\n\
const kind = isReserved ? IS_RESERVED : kindOf(things, line);\n\
const key = isReserved ? undefined : keyIn(things, line);\n\
return { kind, key, isCopied: isCopiedIn(things, line), stand };\n\
}\n\
function keyOf(pid, page, line) {\n\
const use = useAt(pid, page, line) ?? useAt(pid, page, Infinity);\n\
const own = pages.get(idOf(2 * pid, page));\n\
return after(pid, page, line)?.key ?? own ?? (use && sharedKey(use, page));\n\
}\n\
const isTouched = (pid, page) =>\n\
places.has(idOf(pid, page)) || pages.get(idOf(2 * pid, page))?.moves.some(({ frame }) => frame);\n\
return { decode, eachStretch, after, kindAt, keyOf, keyKind, isTouched };\n\
}\n\
const PROTECTIONS = {\n\
1: ['no access', '-'],\n\
2: ['read', 'R'],\n\
4: ['read/write', 'RW'],\n\
8: ['write copy', 'RC'],\n\
0x10: ['execute', 'X'],\n\
0x20: ['execute/read', 'RX'],\n\
0x40: ['execute/read/write', 'RWX'],\n\
0x80: ['execute/write copy', 'RXC'],\n\
};\n\
function protectionIn(protection, isShort = false) {\n\
const words = PROTECTIONS[protection & 0xff]?.[Number(isShort)] ?? '';\n\
return words + (protection & GUARD ? [', guard', ' guard'][Number(isShort)] : '');\n\
}\n\
const sizeOf = (pages) =>\n\
pages >= 2560 ? spelled(Math.round((pages * 4) / 102.4) / 10) + ' M' : spelled(pages * 4) + ' K';\n\
const MOST_COMPARED = 8;\n\
function findStrangers({ data, survey, space }) {\n\
const { machine, count, lines } = data;\n\
const { numbers } = survey;\n\
const { spaces, isObserved, isStrange, charge, limit } = space;\n\
if (isStrange) return 'The observations are not of this run: they are of other processes.';\n\
function chargedCopies(line) {\n\
let sum = 0;\n\
for (const one of spaces.filter(Boolean)) {\n\
for (const { from, to, stand } of one.after(line)) {\n\
const { type, state, protection, first } = stand;\n\
const isIn = ({ pid, page }) => pid === one.pid && page >= from && page < to;\n\
if (type !== MAPPED || state !== COMMITTED) continue;\n\
if ((protection | first) & COPY) sum += to - from;\n\
else sum += copies.filter((page) => isIn(page) && isLive(page, line)).length;\n\
}\n\
}\n\
return sum;\n\
}\n\
const copies = [...data.pages.values()].filter(({ isCopy }) => isCopy);\n\
function committedPrivate(line) {\n\
const regions = spaces.filter(Boolean).flatMap((one) => one.after(line));\n\
const isWanted = ({ stand: { type, state } }) => type === PRIVATE && state === COMMITTED;\n\
return regions.filter(isWanted).reduce((sum, { from, to }) => sum + to - from, 0);\n\
}\n\
const isInside = ({ pid, page }, line) => spaces[pid].standAt(page, line)?.state === COMMITTED;\n\
function complaint(line) {\n\
const { answer, text } = lines[line];\n\
const most = machine.frames + numbers.allSlots[line] - 2 * machine.depth - 2;\n\
if (charge) {\n\
if (limit[line] !== most) return `a limit of ${limit[line]}, where it is ${most}`;\n\
const said = text === 'charge' && answer.startsWith('ok') && Number(answer.split(' ')[1]);\n\
const isOther = said !== false && said !== charge[line];\n\
if (isOther) return `a charge of ${charge[line]}, not ${said}`;\n\
}\n\
if (!isObserved) return '';\n\
const valid = survey.stateAfter(line).sets.flat();\n\
if (!valid.every((one) => isInside(one, line))) return 'a valid page in no region';\n\
if (committedPrivate(line) !== numbers.privates[line]) return 'other private pages';\n\
const rest = charge && charge[line] - numbers.privates[line] - numbers.sections[line];\n\
return charge && rest !== chargedCopies(line) ? 'another charge of copies' : '';\n\
}\n\
if (!isObserved && !charge) return '';\n\
const said = lines.filter(({ text }) => text === 'charge').slice(0, MOST_COMPARED);\n\
const some = Array.from({ length: MOST_COMPARED }, (_, at) => Math.ceil((count * (at + 1)) / 8));\n\
for (const line of new Set([...some, ...said.map(({ number }) => number)])) {\n\
const found = complaint(line);\n\
const where = `The observations are not of this run: after line ${line} they have `;\n\
if (found) return where + found + '.';\n\
}\n\
return '';\n\
}\n\
function makeCharge({ data, survey, space: { spaces, charge, limit }, sections }) {\n\
const { privates, sections: shared } = survey.numbers;\n\
const partsAfter = (line) => {\n\
const [own, sections] = [privates[line], shared[line]];\n\
return [own, sections, Math.max(0, charge[line] - own - sections)];\n\
};\n\
function without({ pid, number }, address, size, isThere) {\n\
const [from, to] = [Math.floor(address / PAGE), pagesIn(Number(address) + Number(size))];\n\
const regions = spaces[pid]?.after(number - 1).filter(({ stand }) => isThere(stand)) ?? [];\n\
const inside = (one) => Math.max(0, Math.min(to, one.to) - Math.max(from, one.from));\n\
return regions.reduce((rest, one) => rest - inside(one), to - from);\n\
}\n\
const ASKED = {\n\
alloc: (line, address, size) =>\n\
Number(address)\n\
? without(line, address, size, ({ state }) => state === COMMITTED)\n\
: pagesIn(Number(size)),\n\
create: (line, size) => pagesIn(Number(size)),\n\
map({ pid }, handle, access, offset, length) {\n\
const pages = sections.handleAt(pid, handle)?.pages;\n\
return pagesIn(Number(length)) || pages - offset / PAGE;\n\
},\n\
protect: (line, address, size, protection) =>\n\
protection & COPY && without(line, address, size, (stand) => stand.protection & COPY),\n\
probe: () => 1,\n\
stack: (line, first, reserve, commit) => pagesIn(Number(commit)) + 1,\n\
};\n\
function refusal({ number, text, answer }) {\n\
if (answer !== 'error 1455' || !charge) return null;\n\
const [charged, most] = [charge[number - 1], limit[number - 1]];\n\
const [word, pid, ...rest] = text.split(' ');\n\
const asked = ASKED[word]?.({ number, pid: Number(pid) }, ...rest);\n\
const isRight = asked > 0 && charged + asked > most;\n\
const more = 'more than ' + spelled(most - charged);\n\
return { charged, most, asked: isRight ? spelled(asked) : more };\n\
}\n\
const refusals = data.lines.flatMap((line) => {\n\
const sum = refusal(line);\n\
return sum ? [{ line: line.number, ...sum }] : [];\n\
});\n\
return { partsAfter, refusals, refusalAt: (line) => refusals.find((one) => one.line === line) };\n\
}\n\
const FONT = 'system-ui, \"Segoe UI\", \"DejaVu Sans\", sans-serif';\n\
const SMALL = '11px ' + FONT;\n\
const BOLD = 'bold 13px ' + FONT;\n\
const MONO = '11px ui-monospace, \"DejaVu Sans Mono\", monospace';\n\
const LETTER = 6.6;\n\
const DASHED = [6, 4];\n\
const DOTTED = [2, 3];\n\
const colours = new Map();\n\
const forgetColours = () => colours.clear();\n\
function colour(name) {\n\
if (!colours.has(name)) {\n\
element('plot').style.color = `var(${name})`;\n\
colours.set(name, getComputedStyle(element('plot')).color);\n\
}\n\
return colours.get(name);\n\
}\n\
const channels = (name) => colour(name).match(/[\\d.]+/g).map(Number);\n\
function inkOn(name) {\n\
const [red, green, blue] = channels(name);\n\
return 0.3 * red + 0.59 * green + 0.11 * blue > 140 ? '--on-bright' : '--on-dark';\n\
}\n\
class Pen {\n\
constructor(canvas, width, height) {\n\
canvas.width = Math.round(width * devicePixelRatio);\n\
canvas.height = Math.round(height * devicePixelRatio);\n\
canvas.style.height = height + 'px';\n\
this.context = canvas.getContext('2d');\n\
this.context.scale(devicePixelRatio, devicePixelRatio);\n\
this.context.textBaseline = 'middle';\n\
}\n\
box(tint, left, top, wide, high, alpha = 1) {\n\
this.context.globalAlpha = alpha;\n\
this.context.fillStyle = colour(tint);\n\
this.context.fillRect(left, top, wide, high);\n\
this.context.globalAlpha = 1;\n\
}\n\
frame(tint, left, top, wide, high, thick) {\n\
this.context.strokeStyle = colour(tint);\n\
this.context.lineWidth = thick;\n\
this.context.strokeRect(left, top, wide, high);\n\
}\n\
path(tint, points, thick = 1, dash = []) {\n\
this.context.strokeStyle = colour(tint);\n\
this.context.lineWidth = thick;\n\
this.context.setLineDash(dash);\n\
this.context.beginPath();\n\
for (let at = 0; at < points.length; at += 2) this.context.lineTo(points[at], points[at + 1]);\n\
this.context.stroke();\n\
this.context.setLineDash([]);\n\
}\n\
hatch(left, top, wide, high, isDown, tint = '--hatch') {\n\
const { context } = this;\n\
context.save();\n\
context.beginPath();\n\
context.rect(left, top, wide, high);\n\
context.clip();\n\
const [from, to] = isDown ? [top, top + high] : [top + high, top];\n\
for (let at = left - high; at < left + wide; at += 6) {\n\
this.path(tint, [at, from, at + high, to], 1.5);\n\
}\n\
context.restore();\n\
}\n\
text(text, left, top, look = {}) {\n\
const { tint = '--ink', align = 'left', font = '12px ' + FONT, turn = 0, isAlone } = look;\n\
const { context } = this;\n\
context.save();\n\
context.translate(left, top);\n\
context.rotate(turn);\n\
context.font = font;\n\
context.textAlign = align;\n\
const wide = isAlone && context.measureText(text).width;\n\
if (isAlone) this.box('--back', -wide - 1, -7, wide + 2, 14);\n\
context.fillStyle = colour(tint);\n\
context.fillText(text, 0, 0);\n\
context.restore();\n\
}\n\
}\n\
const MOST_PICTURES = 24;\n\
const pictures = new Map();\n\
function drawPooled(pen, axis, { name, tints, top, high, tall, rowsAt, eachStretch }) {\n\
const wide = Math.round((axis.right - axis.left) * devicePixelRatio);\n\
const id = [name, ...tints.map(colour), axis.first, axis.last, wide, tall].join();\n\
if (!pictures.has(id)) {\n\
if (pictures.size > MOST_PICTURES) pictures.clear();\n\
pictures.set(id, pool(axis, tints, wide, tall, rowsAt, eachStretch));\n\
}\n\
pen.context.imageSmoothingEnabled = false;\n\
const { canvas, seen } = pictures.get(id);\n\
pen.context.drawImage(canvas, axis.left, top, axis.right - axis.left, high);\n\
return seen;\n\
}\n\
function pool(axis, tints, wide, tall, rowsAt, eachStretch) {\n\
const colours = tints.map((name) => [...channels(name), 255]);\n\
const pixels = wide / axis.count;\n\
const image = new ImageData(wide, tall);\n\
const weights = tints.map(() => new Float32Array(wide));\n\
const seen = new Set();\n\
function weigh(tint, first, next) {\n\
const weight = weights[tint];\n\
const [from, to] = [(first - axis.first) * pixels, (next - axis.first) * pixels];\n\
for (let at = Math.floor(from); at < to; at++) {\n\
weight[at] += Math.min(at + 1, to) - Math.max(at, from);\n\
}\n\
}\n\
function heaviest(at) {\n\
let best = 0;\n\
for (let tint = 1; tint < tints.length; tint++) {\n\
if (weights[tint][at] > weights[best][at]) best = tint;\n\
}\n\
if (!weights[best][at]) return [0, 0, 0, 0];\n\
seen.add(best);\n\
return colours[best];\n\
}\n\
for (let y = 0; y < tall; y++) {\n\
for (const weight of weights) weight.fill(0);\n\
for (const row of rowsAt(y)) eachStretch(row, weigh);\n\
for (let at = 0; at < wide; at++) image.data.set(heaviest(at), 4 * (y * wide + at));\n\
}\n\
const canvas = new OffscreenCanvas(wide, tall);\n\
canvas.getContext('2d').putImageData(image, 0, 0);\n\
return { canvas, seen };\n\
}\n\
const MOST_ROWS = 130;\n\
const MOST_CHOSEN_ROWS = 64;\n\
const MOST_LINES_TO_CHOOSE = 2000;\n\
const MOST_IDLE = 4;\n\
const NOTE_HEIGHT = 18;\n\
const tintOf = (state) => '--state-' + state;\n\
const OWNER_TINTS = [6, 4, 5, 2, 3].map(tintOf);\n\
const tintOfProcess = (pid) => ['--blue', ...OWNER_TINTS][(pid - 1) % 6];\n\
function makePaints(processes) {\n\
const owners = processes.flatMap(({ pid }) => {\n\
const others = processes[pid + 6] ? `, ${pid + 6} ..` : '';\n\
return pid > 6 ? [] : [`Private to process ${pid}${others}`];\n\
});\n\
function ownerOf({ owner }) {\n\
if (!owner) return 0;\n\
if (owner.pid) return 3 + ((owner.pid - 1) % 6);\n\
return owner.isFile ? 1 : 2;\n\
}\n\
const changeOf = ({ owner, isChanged }) => (!owner ? 0 : isChanged ? 2 : 1);\n\
const states = STATES.map((name, state) => (state < READING ? name : 'transition: ' + name));\n\
const ownerTints = ['--state-0', '--yellow', '--grey', '--blue', ...OWNER_TINTS];\n\
const changes = ['No page', 'Same as on the device', 'Changed'];\n\
const paint = (tints, words, of) => ({ tints, words, of });\n\
return {\n\
state: paint([...STATES.keys()].map(tintOf), states.map(capital), ({ state }) => state),\n\
owner: paint(ownerTints, ['No page', 'Mapped file', 'Page-file section', ...owners], ownerOf),\n\
changed: paint([0, 2, 6].map(tintOf), changes, changeOf),\n\
};\n\
}\n\
function makeFrameChart({ data, view }) {\n\
const used = data.frames.filter(({ moves }) => moves.length);\n\
const isWall = data.frames.length - used.length > MOST_IDLE;\n\
const all = isWall ? (used.length ? used : data.frames.slice(0, 1)) : data.frames;\n\
const unused = data.frames.length - all.length;\n\
const note = unused ? NOTE_HEIGHT : 0;\n\
const paints = makePaints(data.processes);\n\
let [pen, axis, rows, place] = [null, null, [], { top: 0, high: 0 }];\n\
let seen = new Set();\n\
function legend() {\n\
const { tints, words } = paints[view.paint];\n\
const item = (look, text, style = '') =>\n\
`<li><i class=\"${look}\" style=\"background-color: ${style}\"></i>${text}`;\n\
const states = words.map((text, at) =>\n\
seen.has(at) ? item(`${view.paint}-${at}`, text, `var(${tints[at]})`) : '',\n\
);\n\
const isHatched = seen.has('hatched') && view.paint !== 'state';\n\
if (seen.has('underlined')) states.push(item('underline', 'Underlined: changed'));\n\
if (isHatched) states.push(item('state-5', 'Hatched: a request holds it'));\n\
return states.join('');\n\
}\n\
const isFollowed = (frame) => view.followed?.thing === frame;\n\
const changesHere = (frame) => isFollowed(frame) || frame.after(axis.last).line > axis.first;\n\
function layOut(seen) {\n\
axis = seen;\n\
rows = all;\n\
if (all.length > MOST_ROWS && axis.count <= MOST_LINES_TO_CHOOSE) {\n\
const chosen = rows.filter(changesHere);\n\
if (chosen.length && chosen.length <= MOST_CHOSEN_ROWS) rows = chosen;\n\
}\n\
return note + heightOf(rows.length);\n\
}\n\
function heightOf(many) {\n\
if (many <= 24) return many * 19;\n\
if (many <= MOST_CHOSEN_ROWS) return many * (axis.column >= 10 ? 14 : axis.column >= 1 ? 8 : 4);\n\
return many <= MOST_ROWS ? many * 4 : 320;\n\
}\n\
function draw(given, top, whole) {\n\
pen = given;\n\
const high = whole - note;\n\
const row = high / rows.length;\n\
place = { top, high };\n\
seen = new Set();\n\
if (axis.column >= 1 && row >= 3) {\n\
rows.forEach((frame, at) => drawRow(frame, top + at * row, row > 6 ? row - 1 : row));\n\
} else drawAll(top, high);\n\
const text = `and ${spelled(unused)} page frames that no line uses`;\n\
if (note) pen.text(text, axis.left + 4, top + high + 9, { tint: '--soft' });\n\
const step = 2 ** Math.max(0, Math.ceil(Math.log2(13 / row)));\n\
for (let at = 0; at < rows.length && !axis.isNarrow; at += step) {\n\
const level = top + (at + 0.5) * row;\n\
pen.text(rows[at].name, axis.left - 10, level, { tint: '--soft', align: 'right' });\n\
}\n\
}\n\
function title() {\n\
if (rows.length === all.length) return 'Page frames';\n\
return place.high > 190 ? 'Frames that change here' : 'These change';\n\
}\n\
function frameAt(y) {\n\
const at = Math.floor(((y - place.top) / place.high) * rows.length);\n\
return y >= place.top ? rows[at] : undefined;\n\
}\n\
function mark(above) {\n\
const [at, row] = [rows.findIndex(isFollowed), place.high / rows.length];\n\
const wide = axis.right - axis.left;\n\
const high = Math.max(2, row > 6 ? row - 1 : row);\n\
if (at >= 0) above.frame('--ink', axis.left, place.top + at * row, wide, high, 2);\n\
}\n\
function eachStand(frame, each) {\n\
const end = axis.last + 1;\n\
let stands = frame.after(axis.first);\n\
let from = axis.first;\n\
for (let at = frame.countUpTo(from); from < end; at++) {\n\
const next = frame.moves[at];\n\
const to = Math.min(end, next?.line ?? end);\n\
if (to > from) each(stands, from, to);\n\
[stands, from] = [next, to];\n\
}\n\
}\n\
function drawRow(frame, top, high) {\n\
const { tints, of } = paints[view.paint];\n\
eachStand(frame, (stands, from, to) => {\n\
const { state, owner, isChanged } = stands;\n\
const tint = tints[of(stands)];\n\
const left = axis.x(from);\n\
const wide = axis.x(to) - left - (axis.column > 6 ? 1 : 0);\n\
pen.box(tint, left, top, wide, high);\n\
seen.add(of(stands));\n\
const isHatched = state >= READING && high > 5;\n\
if (isHatched) pen.hatch(left, top, wide, high, state === READING);\n\
if (isHatched) seen.add('hatched');\n\
const isUnderlined = isChanged && state === ACTIVE && high > 8;\n\
if (isUnderlined) pen.box(inkOn(tint), left, top + high - 3, wide, 2, 0.55);\n\
if (isUnderlined) seen.add('underlined');\n\
if (owner && high >= 12) drawName(stands, tint, left, top, wide, high);\n\
});\n\
}\n\
function drawName({ owner, shares, request }, tint, left, top, wide, high) {\n\
const text = owner.name + (shares > 1 ? ' \\u00d7' + shares : '');\n\
const need = text.length * LETTER;\n\
if (need + 5 >= wide) return;\n\
if (request) pen.box(tint, left + 2, top + 2, need + 4, high - 4);\n\
pen.text(text, left + 4, top + high / 2, { tint: inkOn(tint), font: MONO });\n\
}\n\
function drawAll(top, high) {\n\
const { tints, of } = paints[view.paint];\n\
const tall = clamp(Math.round(high * devicePixelRatio), 1, all.length);\n\
const edge = (y) => Math.floor((y * all.length) / tall);\n\
seen = drawPooled(pen, axis, {\n\
...{ name: 'frames ' + view.paint, tints, top, high, tall },\n\
rowsAt: (y) => all.slice(edge(y), edge(y + 1)),\n\
eachStretch: (frame, weigh) =>\n\
eachStand(frame, (stands, from, to) => weigh(of(stands), from, to)),\n\
});\n\
}\n\
return { paints, legend, layOut, draw, title, frameAt, mark };\n\
}\n\
const STRIP_BUDGET = 620;\n\
const MOST_SAMPLES = 12;\n\
const FOLDED = 3;\n\
const ROW_HEIGHTS = [\n\
[24, 15],\n\
[48, 12],\n\
[80, 8],\n\
[140, 4],\n\
];\n\
const PAGE_PAINTS = {\n\
pages: {\n\
tints: '--back --reserved --state-5 --untouched --state-2 --state-4'.split(' '),\n\
words: ['', 'Reserved', 'On disk: hard fault', 'Not touched: demand-zero'].concat([\n\
'In memory: soft fault',\n\
'Valid',\n\
]),\n\
of: ({ kind }) => kind,\n\
},\n\
protection: {\n\
tints: '--back --reserved --grey --state-2 --state-4 --yellow --blue --state-6'.split(' '),\n\
words: ',Reserved,No access,Read,Read/write,Write copy,Execute,Execute and write'.split(','),\n\
of({ kind, stand: { protection } }) {\n\
if (kind === IS_RESERVED) return 1;\n\
const at = [1, 2, 4, 8, 0x10, 0x20, 0x40, 0x80].indexOf(protection & 0xff);\n\
return [2, 3, 4, 5, 6, 6, 7, 5][at] ?? 0;\n\
},\n\
},\n\
};\n\
function makeStripChart({ view, space: { spaces }, sections, pages, shown }) {\n\
const nameAt = (pid, base, line) => nameOfUse(sections.useOf(pid, base, line));\n\
let [pen, axis, strips] = [null, null, []];\n\
let seen = new Set();\n\
function rowsIn(space) {\n\
const runs = [];\n\
const isSeen = ({ since, until }) => since <= axis.last && until > axis.first;\n\
function add(from, to, fold, part) {\n\
const last = runs.at(-1);\n\
const isNext = last?.to === from;\n\
if (fold && isNext && last.fold === fold && last.part === part) last.to = to;\n\
else runs.push({ from, to, fold, part, isFirst: !isNext });\n\
}\n\
for (const { from, to, rects } of space.cut) {\n\
const seen = rects.filter(isSeen);\n\
if (!seen.length) continue;\n\
if (seen.every(({ stand }) => stand.state === RESERVED)) add(from, to, 'reserved', from);\n\
else {\n\
for (let page = from; page < to; page++) {\n\
add(page, page + 1, pages.isTouched(space.pid, page) ? '' : 'untouched', from);\n\
}\n\
}\n\
}\n\
return runs.flatMap(unfolded);\n\
}\n\
function unfolded(run) {\n\
const many = run.to - run.from;\n\
if (many > FOLDED + 1) return [run];\n\
return Array.from({ length: many }, (_, at) => {\n\
const from = run.from + at;\n\
return { ...run, from, to: from + 1, isFirst: run.isFirst && !at };\n\
});\n\
}\n\
function heightsOf(rows, budget) {\n\
const units = rows.reduce((sum, { from, to }) => sum + Math.min(FOLDED, to - from), 0);\n\
const gaps = rows.filter(({ isFirst }) => isFirst).length;\n\
const roomy = ROW_HEIGHTS.find(([most]) => units <= most)?.[1] ?? 0;\n\
const unit = roomy * units <= budget ? roomy : 0;\n\
const gap = unit ? (unit >= 8 ? 6 : 3) : Math.min(3, (0.2 * budget) / gaps);\n\
return { gap, unit: unit || Math.max(0.02, (budget - gap * gaps) / units) };\n\
}\n\
function layOut(given) {\n\
axis = given;\n\
seen = new Set();\n\
const pids = shown();\n\
strips = pids.flatMap((pid) => {\n\
const space = spaces[pid];\n\
const rows = rowsIn(space);\n\
if (!rows.length) return [];\n\
const { gap, unit } = heightsOf(rows, STRIP_BUDGET / pids.length);\n\
let high = 0;\n\
for (const row of rows) {\n\
high += row.isFirst && high ? gap : 0;\n\
row.top = high;\n\
high += row.high = unit * Math.min(FOLDED, row.to - row.from);\n\
}\n\
return [{ pid, space, rows, unit, high: Math.max(18, high), top: 0 }];\n\
});\n\
return strips;\n\
}\n\
function draw(strip, given, top) {\n\
pen = given;\n\
strip.top = top;\n\
if (strip.unit >= 3 && axis.column >= 1) {\n\
strip.rows.forEach((row, at) => drawRow(strip, row, strip.rows[at - 1]));\n\
} else drawStrip(strip);\n\
if (!axis.isNarrow) drawAddresses(strip);\n\
}\n\
function drawAddresses({ space, rows, top, unit, high }) {\n\
let free = -Infinity;\n\
for (const { from, to, isFirst, top: above, high: tall } of rows) {\n\
const level = top + Math.max(5, above + Math.min(tall / 2, 7));\n\
const isFar = level >= free && (isFirst || unit >= 11);\n\
if (!isFar || level > top + Math.max(high - 2, 6)) continue;\n\
free = level + 12.5;\n\
const tint = isFirst ? '--ink' : '--soft';\n\
pen.text(addressOf(from), axis.left - 8, level, { tint, align: 'right', font: MONO });\n\
const rect = space.rectsAt(from).findLast(({ since }) => since <= axis.last);\n\
const name = isFirst && rect ? nameAt(space.pid, rect.stand.base, axis.last) : '';\n\
const text = name || (to - from > FOLDED ? sizeOf(to - from) : '');\n\
pen.text(text.slice(0, 12), axis.right + 6, level, { tint: '--soft', font: SMALL });\n\
}\n\
}\n\
function stretchesOf(space, page) {\n\
const { tints, of } = PAGE_PAINTS[view.tint];\n\
const stretches = [];\n\
pages.eachStretch(space, page, axis, (code, from, to) => {\n\
const found = pages.decode(code);\n\
const tint = tints[of(found)];\n\
seen.add(of(found));\n\
const last = stretches.at(-1);\n\
const isAlike = last?.to === from && last.tint === tint && last.stand === found.stand;\n\
if (isAlike && last.isCopied === found.isCopied) last.to = to;\n\
else stretches.push({ ...found, tint, from, to });\n\
});\n\
return stretches;\n\
}\n\
function drawRow({ space, top: start, unit }, row, above) {\n\
const [top, high] = [start + row.top, unit > 6 ? row.high - 1 : row.high];\n\
for (const stretch of stretchesOf(space, row.from)) {\n\
const { kind, isCopied, stand, tint, from, to } = stretch;\n\
const left = axis.x(from);\n\
const box = { left, top, wide: axis.x(to) - left - (axis.column > 6 ? 1 : 0), high };\n\
pen.box(tint, left, top, box.wide, high);\n\
if (kind === IS_RESERVED && high > 4) dotted(box, 1 / 2, '--soft', [1, 4]);\n\
if (stand.protection & GUARD) pen.hatch(left, top, box.wide, high, true, '--guard');\n\
if (stand.protection & GUARD) seen.add('guard');\n\
if (isCopied) pen.box(inkOn(tint), left, top + high - 2, box.wide, 2, 0.75);\n\
if (isCopied) seen.add('copied');\n\
if (row.to - row.from > 1 && kind !== IS_RESERVED) {\n\
for (const part of [1 / 3, 2 / 3]) dotted(box, part, '--back', DOTTED);\n\
}\n\
if (high >= 10 && isNewsIn(space, row, stretch, above)) {\n\
drawWords(wordsOf(space, row, stretch, above), tint, box);\n\
}\n\
}\n\
}\n\
function dotted({ left, top, wide, high }, part, tint, dash) {\n\
const level = top + high * part;\n\
pen.path(tint, [left, level, left + wide, level], 1, dash);\n\
}\n\
function isNewsIn({ pid }, { from: page }, { stand, isCopied, from }, above) {\n\
const isSame = (other) => other?.stand === stand && other.isCopied === isCopied;\n\
if (from > axis.first && isSame(pages.after(pid, page, from - 1))) return false;\n\
return isCopied || above?.to !== page || !isSame(pages.after(pid, page - 1, from));\n\
}\n\
function wordsOf({ pid }, row, { stand, isCopied, kind, from }, above) {\n\
const address = axis.isNarrow && above?.to !== row.from ? addressOf(row.from) : '';\n\
const name = row.from === stand.base ? nameAt(pid, stand.base, from) : '';\n\
const size = row.to - row.from > 1 ? sizeOf(row.to - row.from) : '';\n\
const word = kind === IS_RESERVED ? 'reserved' : protectionIn(stand.protection, true);\n\
return [isCopied ? '\\u25c6' : '', address, name, word, size];\n\
}\n\
function drawWords(all, tint, { left, top, wide, high }) {\n\
const textOf = (words) => words.filter(Boolean).join(' ');\n\
const [sign, address, name, word] = all;\n\
const choices = [all, all.slice(0, 4), [sign, name, word], [sign, word], [word], [sign]];\n\
const text = choices.map(textOf).find((one) => one.length * LETTER + 6 <= wide);\n\
if (!text) return;\n\
pen.box(tint, left + 2, top + 1, text.length * LETTER + 3, high - (sign ? 4 : 2), 0.85);\n\
pen.text(text, left + 4, top + high / 2, { tint: inkOn(tint), font: MONO });\n\
}\n\
function drawStrip({ space, rows, top, high }) {\n\
const { tints, of } = PAGE_PAINTS[view.tint];\n\
const tall = Math.max(1, Math.round(high * devicePixelRatio));\n\
function rowsAt(y) {\n\
const [above, below] = [(y * high) / tall, ((y + 1) * high) / tall];\n\
const first = firstAt(rows, (row) => row.top + row.high > above);\n\
const here = rows.slice(first, firstAt(rows, (row) => row.top >= below));\n\
const step = Math.ceil(here.length / MOST_SAMPLES);\n\
return here.filter((_, at) => at % step === 0);\n\
}\n\
const drawn = drawPooled(pen, axis, {\n\
...{ name: `${space.pid} ${view.tint}`, tints, top, high, tall, rowsAt },\n\
eachStretch: ({ from: page }, weigh) =>\n\
pages.eachStretch(space, page, axis, (code, from, to) =>\n\
weigh(of(pages.decode(code)), from, to),\n\
),\n\
});\n\
drawn.forEach((at) => seen.add(at));\n\
}\n\
function pageAt(y) {\n\
const strip = strips.find(({ top, high }) => y >= top && y < top + high);\n\
const from = y - strip?.top;\n\
const row = strip?.rows.find(({ top, high }) => from >= top && from < top + high);\n\
return row ? { pid: strip.pid, page: row.from, to: row.to } : null;\n\
}\n\
function mark(above) {\n\
if (view.followed?.kind !== 'page') return;\n\
const isKey = (pid, page) => pages.after(pid, page, view.line)?.key === view.followed.thing;\n\
for (const { pid, rows, top, unit } of strips) {\n\
for (const row of unit >= 3 ? rows.filter(({ from }) => isKey(pid, from)) : []) {\n\
const wide = axis.right - axis.left;\n\
above.frame('--ink', axis.left, top + row.top, wide, unit > 6 ? row.high - 1 : row.high, 2);\n\
}\n\
}\n\
}\n\
function legend() {\n\
if (!strips.length) return '';\n\
const { tints, words } = PAGE_PAINTS[view.tint];\n\
const item = (text, at) =>\n\
text && seen.has(at) ? `<li><i style=\"background: var(${tints[at]})\"></i>${text}` : '';\n\
const guard = seen.has('guard') ? '<li><i class=\"guard\"></i>Guard page' : '';\n\
const copied = seen.has('copied') ? '<li><i class=\"underline\"></i>\\u25c6 Copied page' : '';\n\
return words.map(item).join('') + guard + copied;\n\
}\n\
return { layOut, draw, pageAt, mark, legend, titleOf: ({ pid }) => `Process ${pid}` };\n\
}\n\
const STACKED = [ACTIVE, MODIFIED, STANDBY, READING, FREE, ZEROED];\n\
const CHARGED = [\n\
['--blue', 'private'],\n\
['--state-2', 'sections'],\n\
['--yellow', 'copies'],\n\
];\n\
const RATE_UNITS = [1, 10, 100, 1000, 10000];\n\
const AGE_ALPHAS = [0.8, 0.5, 0.3, 0.14];\n\
const LEAST_WINDOW = 7;\n\
function makeTracks(page, sheet) {\n\
const { data, survey, view, space, charge, shown } = page;\n\
const { count, frames, processes, machine } = data;\n\
const { numbers, charges } = survey;\n\
function texts(top, high) {\n\
const { axis, pen } = sheet;\n\
const [turn, size, shift] = axis.column < 20 ? [1.2, 10.5, 3] : [0.72, 12, 6];\n\
function shortOf({ number, text, answer, isOk }) {\n\
const all = isOk ? text : `${text} \\u2192 ${answer}`;\n\
const room = Math.min(axis.middle(number) / Math.cos(turn), (high - 12) / Math.sin(turn));\n\
const most = Math.floor(room / (size * 0.6)) - 5;\n\
return `${all.length > most ? all.slice(0, most - 1) + '\\u2026' : all}   ${number}`;\n\
}\n\
function write(line, on, isChosen) {\n\
const text = shortOf(line);\n\
const tint = isChosen ? '--accent' : line.isOk ? '--ink' : '--alarm';\n\
const font = `${isChosen ? 'bold ' : ''}${size}px ${FONT}`;\n\
const place = [axis.middle(line.number) + shift, top + high - 5];\n\
on.text(text, ...place, { tint, align: 'right', font, turn, isAlone: isChosen });\n\
}\n\
for (const line of data.lines.slice(axis.first, axis.last + 1)) write(line, pen, false);\n\
sheet.later((above) => axis.has(view.line) && write(data.lines[view.line], above, true));\n\
}\n\
function lineNumbers(top, high) {\n\
const { axis, pen } = sheet;\n\
const level = top + high - 9;\n\
const number = (line, tint, on) =>\n\
on.text(spelled(line), axis.middle(line), level, { tint, align: 'center' });\n\
const least = 56 / axis.column;\n\
const unit = 10 ** Math.floor(Math.log10(least));\n\
const step = [1, 2, 5, 10].map((some) => some * unit).find((some) => some >= least);\n\
sheet.label(level, 'Line, of ' + spelled(count));\n\
for (let line = Math.ceil(axis.first / step) * step; line <= axis.last; line += step) {\n\
if (axis.middle(line) > axis.left + 26) number(line, '--soft', pen);\n\
}\n\
sheet.later((above) => {\n\
if (!axis.has(view.line)) return;\n\
const wide = 10 + 7.7 * spelled(view.line).length;\n\
above.box('--accent', axis.middle(view.line) - wide / 2, top + 3, wide, high - 5);\n\
number(view.line, '--back', above);\n\
});\n\
}\n\
function events({ group, title, sign, tint }, top, high) {\n\
const { axis, pen } = sheet;\n\
const sum = numbers[group];\n\
const columns = axis.columns();\n\
const counts = columns.map(({ first, last }) => sum[last] - sum[first - 1]);\n\
const unit = (high - 3) / mostOf(counts);\n\
sheet.label(top + high / 2, title, spelled(sum[count]));\n\
sheet.rule(top + high - 1);\n\
columns.forEach(({ from, to }, at) => {\n\
const times = counts[at];\n\
if (times && axis.column >= 9) {\n\
const text = sign + (times > 1 && axis.column >= 24 ? ' ' + times : '');\n\
pen.text(text, (from + to) / 2, top + high / 2, { tint, align: 'center', font: BOLD });\n\
} else if (times) {\n\
const tall = Math.max(2, unit * times);\n\
const gap = to - from > 4 ? 1 : 0;\n\
pen.box(tint, from, top + high - 1 - tall, Math.max(1, to - from - gap), tall);\n\
}\n\
});\n\
}\n\
function windows(axis) {\n\
const least = (LEAST_WINDOW * axis.count) / (axis.right - axis.left);\n\
const unit = 10 ** Math.ceil(Math.log10(Math.max(1, least)) - 1e-9);\n\
const size = [unit / 5, unit / 2, unit].find((some) => some >= Math.max(1, least));\n\
const first = axis.first - ((axis.first - 1) % size);\n\
const many = Math.ceil((axis.last + 1 - first) / size);\n\
return { size, starts: Array.from({ length: many }, (_, at) => first + at * size) };\n\
}\n\
const countIn = (lines, from, to) =>\n\
firstAt(lines, (line) => line >= to) - firstAt(lines, (line) => line >= from);\n\
function faultLayers() {\n\
const some = processes.filter(({ faults }) => faults.length);\n\
const isShown = ({ pid }) => shown().includes(pid);\n\
const rest = some.filter((one) => !isShown(one)).flatMap(({ faults }) => faults);\n\
const layers = some.filter(isShown).map(({ pid, faults }) => {\n\
return { word: 'process ' + pid, tint: tintOfProcess(pid), all: faults };\n\
});\n\
rest.sort((a, b) => a - b);\n\
return rest.length ? [...layers, { word: 'others', tint: '--grey', all: rest }] : layers;\n\
}\n\
function ratesNow() {\n\
const layers = faultLayers();\n\
const height = Math.max(76, 50 + 14 * layers.length);\n\
return layers.length ? [[height, (...place) => rates(layers, ...place)]] : [];\n\
}\n\
function rates(layers, top, high) {\n\
const { axis, pen } = sheet;\n\
const { size, starts } = windows(axis);\n\
const countsIn = (lines) => starts.map((from) => countIn(lines, from, from + size));\n\
const hard = countsIn(processes.flatMap((one) => one.hard).sort((a, b) => a - b));\n\
const counts = layers.map(({ all }) => countsIn(all));\n\
const most = mostOf(starts.map((_, at) => counts.reduce((sum, some) => sum + some[at], 0)));\n\
const [bottom, unit] = [top + high - 2, (high - 12) / Math.max(1, most)];\n\
const edge = [];\n\
starts.forEach((from, at) => {\n\
const [left, right] = [axis.x(from), axis.x(from + size)].map(axis.inside);\n\
let level = bottom;\n\
layers.forEach(({ tint }, which) => {\n\
const tall = counts[which][at] * unit;\n\
level -= tall;\n\
pen.box(tint, left, level, Math.max(1, right - left - 1), tall, 0.75);\n\
});\n\
edge.push(left, bottom - hard[at] * unit, right, bottom - hard[at] * unit);\n\
});\n\
sheet.rule(bottom);\n\
sheet.rule(bottom - most * unit, '--rule', DOTTED);\n\
pen.path('--state-5', edge, 2);\n\
rateLabels(layers, most, size, top, bottom);\n\
}\n\
function rateLabels(layers, most, size, top, bottom) {\n\
const per = RATE_UNITS.findLast((one) => one <= size);\n\
const rate = spelled(Math.round((10 * most * per) / size) / 10);\n\
sheet.label(top + 13, `Faults ${per === 1 ? 'a line' : `in ${spelled(per)} lines`}`, rate);\n\
if (sheet.axis.isNarrow) return;\n\
sheet.label(bottom - 5, '', 0);\n\
const keys = [{ word: 'of them hard', tint: '--state-5' }, ...layers];\n\
keys.forEach(({ word, tint }, at) => sheet.key(top + 29 + 14 * at, word, tint));\n\
}\n\
function stack(axis, pen, top, high) {\n\
for (const { from, to, last } of axis.columns()) {\n\
const [left, right] = [Math.round(from), Math.round(to)];\n\
let bottom = top + high;\n\
for (const state of STACKED) {\n\
const tall = (high * numbers[COUNTS[state]][last]) / frames.length;\n\
bottom -= tall;\n\
pen.box('--state-' + state, left, bottom, right - left, tall + 0.3);\n\
}\n\
}\n\
}\n\
function lists(top, high) {\n\
stack(sheet.axis, sheet.pen, top, high);\n\
sheet.label(top + 9, 'Page frames by list', spelled(frames.length));\n\
if (!sheet.axis.isNarrow) sheet.label(top + high - 8, '', 0);\n\
}\n\
function chargeTrack(top, high) {\n\
const { axis, pen } = sheet;\n\
const bottom = top + high - 2;\n\
const used = mostOf(space.charge.subarray(axis.first, axis.last + 1));\n\
const most = mostOf(space.limit.subarray(axis.first, axis.last + 1));\n\
const isLimited = most <= 4 * used;\n\
const scale = Math.max(1, isLimited ? most : 1.25 * used);\n\
const level = (number) => bottom - ((high - 16) * number) / scale;\n\
const [edge, limits] = [[], []];\n\
for (const { from, to, first, last } of axis.columns()) {\n\
const sum = chargeColumn(peakOf(first, last), Math.round(from), Math.round(to), level);\n\
edge.push(from, level(sum), to, level(sum));\n\
limits.push(from, level(space.limit[last]), to, level(space.limit[last]));\n\
}\n\
sheet.rule(bottom);\n\
pen.path('--ink', edge, 1.2);\n\
if (isLimited) pen.path('--alarm', limits, 1.5, DASHED);\n\
refusals(level, top);\n\
sheet.label(top + 13, 'Commit charge', () => ofMost(space.charge, (line) => space.limit[line]));\n\
if (axis.isNarrow) return;\n\
CHARGED.forEach(([tint, word], at) => {\n\
const value = () => spelled(charge.partsAfter(view.line)[at]);\n\
sheet.key(top + 32 + 16 * at, word, tint, value);\n\
});\n\
}\n\
const ofMost = (values, most) => `${spelled(values[view.line])} of ${spelled(most(view.line))}`;\n\
function peakOf(first, last) {\n\
let peak = last;\n\
for (let line = first; line < last; line++) {\n\
if (space.charge[line] > space.charge[peak]) peak = line;\n\
}\n\
return peak;\n\
}\n\
function chargeColumn(line, left, right, level) {\n\
let sum = 0;\n\
charge.partsAfter(line).forEach((part, at) => {\n\
const tall = level(sum) - level(sum + part);\n\
sheet.pen.box(CHARGED[at][0], left, level(sum + part), right - left, tall + 0.2);\n\
sum += part;\n\
});\n\
return sum;\n\
}\n\
function refusals(level, top) {\n\
const { axis, pen } = sheet;\n\
const seen = charge.refusals.filter(({ line }) => axis.has(line));\n\
seen.forEach(({ line, charged, asked, most }, at) => {\n\
const left = axis.middle(line);\n\
const [before, next] = [at - 1, at + 1].map((one) => axis.middle(seen[one]?.line ?? NaN));\n\
if (left - before < 9 || next - left < 9) pen.box('--alarm', left - 0.5, top + 1, 1.5, 10);\n\
else pen.text('\\u2717', left, top + 6, { tint: '--alarm', align: 'center', font: BOLD });\n\
const text = `${spelled(charged)} + ${asked} > ${spelled(most)}`;\n\
const need = text.length * 6.6 + 10;\n\
if (left + need <= Math.min(axis.right, next || Infinity)) {\n\
pen.text(text, left + 8, top + 6, { tint: '--alarm' });\n\
} else if (at === 0 && left - need > axis.left) {\n\
pen.text(text, left - 8, top + 6, { tint: '--alarm', align: 'right' });\n\
}\n\
});\n\
}\n\
function setNumber({ pid, min, max, sizes }, largest) {\n\
const limits = { top: clamp(max, largest, 2 * largest), most: () => max, least: min };\n\
return { title: 'Working set ' + pid, tint: '--state-4', values: sizes, ...limits };\n\
}\n\
function otherNumbers() {\n\
const { allSlots, slots, requests, committed } = numbers;\n\
const inUse = allSlots.map((all, line) => all - slots[line]);\n\
const limit = (line) => machine.frames + allSlots[line] - 2 * machine.depth - 2;\n\
const { depth } = machine;\n\
const top = Math.max(1, limit(count));\n\
const keys = ['Keys, not the charge', '--accent', committed, top, limit, charges];\n\
return [\n\
['Paging-file slots', '--state-2', inUse, allSlots[count], (line) => allSlots[line]],\n\
['Requests in flight', '--state-5', requests, depth, () => depth],\n\
...(space.charge ? [] : [keys]),\n\
]\n\
.map(([title, tint, values, top, most, dots]) => ({ title, tint, values, top, most, dots }))\n\
.filter(({ top }) => top);\n\
}\n\
function numberTrack({ title, tint, values, top: scale, most, least, dots, ages }, top, high) {\n\
const { axis, pen } = sheet;\n\
const bottom = top + high - 2;\n\
const level = (number) => bottom - 1 - ((high - 8) * Math.min(scale, number)) / scale;\n\
const edge = axis.columns().flatMap(({ from, to, first, last }) => {\n\
const at = level(mostOf(values.subarray(first, last + 1)));\n\
if (ages) ageColumn(ages, last, Math.round(from), Math.round(to), level);\n\
else pen.box(tint, from, at, to - from + 0.4, bottom - at, 0.3);\n\
return [from, at, to, at];\n\
});\n\
sheet.rule(bottom);\n\
if (least !== undefined) sheet.rule(level(least), '--soft', DOTTED);\n\
if (most(count) <= scale) sheet.rule(level(most(count)), '--soft', DASHED);\n\
pen.path(tint, edge, 2);\n\
for (const [line, pages] of dots ?? []) {\n\
if (axis.has(line)) pen.text('\\u25cf', axis.middle(line), level(pages), { align: 'center' });\n\
}\n\
sheet.label(top + high / 2, title, () => ofMost(values, most));\n\
}\n\
function ageColumn(ages, line, from, to, level) {\n\
let sum = 0;\n\
ages.forEach((pages, at) => {\n\
const tall = level(sum) - level(sum + pages[line]);\n\
sum += pages[line];\n\
sheet.pen.box('--state-4', from, level(sum), to - from, tall, AGE_ALPHAS[at]);\n\
});\n\
}\n\
const largest = mostOf([1, ...processes.map(({ sizes }) => mostOf(sizes)).filter(Boolean)]);\n\
const others = otherNumbers();\n\
const ages = new Map();\n\
function numbersNow() {\n\
const sets = shown().map((pid) => {\n\
const process = processes[pid];\n\
if (data.hasAges && !ages.has(pid)) ages.set(pid, agesOf(data, process));\n\
return { ...setNumber(process, largest), ages: ages.get(pid) };\n\
});\n\
return [...sets, ...others];\n\
}\n\
const kinds = { texts, lineNumbers, events, lists, stack, chargeTrack, numberTrack };\n\
return { ...kinds, ratesNow, numbersNow };\n\
}\n\
const WIDE_LEFT = 150;\n\
const NARROW = 640;\n\
const LEAST_WIDTH = 60;\n\
const HEADING = 16;\n\
const GAP = 4;\n\
function makeAxis(first, last, left, right) {\n\
const count = last - first + 1;\n\
const column = (right - left) / count;\n\
const x = (line) => left + (line - first) * column;\n\
const middle = (line) => x(line + 0.5);\n\
const has = (line) => line >= first && line <= last;\n\
const inside = (place) => clamp(place, left, right);\n\
const isInside = (place) => place >= left && place <= right;\n\
const lineAt = (place) => clamp(first + Math.floor((place - left) / column), first, last);\n\
function columns() {\n\
const most = Math.min(count, Math.floor(right - left));\n\
const line = (at) => first + Math.floor((at * count) / most);\n\
const edge = (at) => left + (at * (right - left)) / most;\n\
return Array.from({ length: most }, (_, at) => {\n\
return { from: edge(at), to: edge(at + 1), first: line(at), last: line(at + 1) - 1 };\n\
});\n\
}\n\
const ways = { columns, x, middle, has, inside, isInside, lineAt };\n\
return { first, last, left, right, isNarrow: left < WIDE_LEFT, count, column, ...ways };\n\
}\n\
class Sheet {\n\
begin(pen, axis) {\n\
Object.assign(this, { pen, axis, heading: 0, parts: [] });\n\
}\n\
later(draw) {\n\
this.parts.push(draw);\n\
}\n\
label(top, title, value = '') {\n\
const { pen, axis, heading } = this;\n\
const { left, right, isNarrow } = axis;\n\
const look = { tint: '--soft', align: isNarrow ? 'right' : 'left' };\n\
const place = isNarrow ? [right, heading] : [right + 8, top];\n\
const write = (on, text) => on.text(text, ...place, look);\n\
if (isNarrow) pen.text(title, left, heading);\n\
else pen.text(title, left - 10, top, { align: 'right' });\n\
if (typeof value === 'function') this.later((above) => write(above, value()));\n\
else write(pen, value);\n\
}\n\
key(top, word, tint, value) {\n\
const { pen, axis } = this;\n\
pen.text(word, axis.left - 26, top, { tint: '--soft', align: 'right' });\n\
pen.box(tint, axis.left - 21, top - 5, 11, 10);\n\
if (value) this.label(top, '', value);\n\
}\n\
rule(top, tint = '--rule', dash = []) {\n\
const level = Math.round(top) + 0.5;\n\
this.pen.path(tint, [this.axis.left, level, this.axis.right, level], 1, dash);\n\
}\n\
side(top, high, text) {\n\
const look = { align: 'center', turn: -Math.PI / 2 };\n\
if (this.axis.isNarrow) this.label(top, text);\n\
else if (high < 60) this.pen.text(text, 4, top + 8, { font: SMALL });\n\
else this.pen.text(text, 14, top + Math.min(high, 400) / 2, look);\n\
}\n\
}\n\
function makeCharts(page) {\n\
const { data, survey, view, space } = page;\n\
const { count, frames, processes } = data;\n\
const [plot, marks, overview] = ['plot', 'marks', 'overview'].map(element);\n\
const sheet = new Sheet();\n\
const [frameChart, stripChart] = [makeFrameChart(page), makeStripChart(page)];\n\
const tracks = makeTracks(page, sheet);\n\
const { frameAt, paints } = frameChart;\n\
const { pageAt } = stripChart;\n\
const ways = { draw, fit, mark, show, frameAt, pageAt, paints };\n\
const charts = { ...ways, axis: null, whole: null };\n\
const margin = frames.length + survey.numbers.allSlots[count] < 1000 ? 84 : 126;\n\
const numberHeight = processes.length > 7 ? 26 : 40;\n\
let [drawn, size] = ['', null];\n\
function stripTrack(strip) {\n\
return [strip.high + 10, drawStrip];\n\
function drawStrip(top) {\n\
stripChart.draw(strip, sheet.pen, top + 5);\n\
sheet.side(top + 5, strip.high, stripChart.titleOf(strip));\n\
}\n\
}\n\
function drawFrames(top, high) {\n\
frameChart.draw(sheet.pen, top, high);\n\
sheet.side(top, high, frameChart.title());\n\
}\n\
function tracksNow(axis) {\n\
const strips = stripChart.layOut(axis);\n\
return [\n\
axis.column < 10 ? [24, tracks.lineNumbers] : [axis.column < 20 ? 226 : 190, tracks.texts],\n\
...survey.tracks.map((track) => [15, (...place) => tracks.events(track, ...place)]),\n\
...strips.map(stripTrack),\n\
...(space.charge ? [[96, tracks.chargeTrack]] : []),\n\
...tracks.ratesNow(),\n\
[frameChart.layOut(axis), drawFrames],\n\
[96, tracks.lists],\n\
...tracks\n\
.numbersNow()\n\
.map((number) => [numberHeight, (...place) => tracks.numberTrack(number, ...place)]),\n\
];\n\
}\n\
const looks = () =>\n\
[view.first, view.last, view.paint, view.tint, view.space, view.followed?.thing.name].join();\n\
function draw() {\n\
const width = plot.parentElement.clientWidth;\n\
forgetColours();\n\
const bar = document.querySelector('nav').offsetHeight;\n\
document.documentElement.style.setProperty('--bar', bar + 'px');\n\
size = null;\n\
if (width < LEAST_WIDTH) return;\n\
const isNarrow = width < NARROW;\n\
const [left, right] = isNarrow ? [4, width - 4] : [WIDE_LEFT, width - margin];\n\
const axis = (charts.axis = makeAxis(view.first, view.last, left, right));\n\
charts.whole = makeAxis(1, count, left, right);\n\
const [all, above] = [tracksNow(axis), isNarrow ? HEADING : 0];\n\
const height = all.reduce((sum, [high]) => sum + high + GAP + above, 0);\n\
size = { width, height, first: all[0][0] + above };\n\
sheet.begin(new Pen(plot, width, height), axis);\n\
let top = 0;\n\
for (const [high, drawTrack] of all) {\n\
sheet.heading = top + 8;\n\
drawTrack(top + above, high);\n\
top += above + high + GAP;\n\
}\n\
drawn = looks();\n\
drawOverview(width);\n\
legend();\n\
mark();\n\
}\n\
function fit() {\n\
if (plot.parentElement.clientWidth !== size?.width) draw();\n\
}\n\
function mark(isPaper = false) {\n\
if (!size) return;\n\
const { axis } = charts;\n\
const pen = isPaper ? sheet.pen : new Pen(marks, size.width, size.height);\n\
for (const part of sheet.parts) part(pen);\n\
stripChart.mark(pen);\n\
frameChart.mark(pen);\n\
if (!axis.has(view.line)) return;\n\
const wide = axis.column < 3 ? 0 : axis.column;\n\
const place = [axis.middle(view.line) - wide / 2, size.first, wide];\n\
pen.box('--chosen', ...place, size.height - size.first);\n\
pen.frame('--accent', ...place, size.height - size.first - 1, 1.5);\n\
}\n\
function show() {\n\
if (drawn === looks()) mark();\n\
else draw();\n\
}\n\
function drawOverview(width) {\n\
const { axis, whole } = charts;\n\
overview.hidden = count < 200 && axis.count === count;\n\
if (overview.hidden) return;\n\
const pen = new Pen(overview, width, 34);\n\
tracks.stack(whole, pen, 2, 28);\n\
if (!axis.isNarrow) pen.text('Whole log', axis.left - 10, 16, { align: 'right' });\n\
const [from, to] = [whole.x(axis.first), whole.x(axis.last + 1)];\n\
pen.box('--back', axis.left, 0, from - axis.left, 34, 0.72);\n\
pen.box('--back', to, 0, whole.right - to, 34, 0.72);\n\
pen.frame('--accent', from, 1, Math.max(2, to - from), 31, 2);\n\
}\n\
function legend() {\n\
const row = (title, items) => items && `<ul><li class=\"quiet\">${title}:</li>${items}</ul>`;\n\
const addresses = row('Addresses', stripChart.legend());\n\
element('legend').innerHTML = addresses + row('Frames', frameChart.legend());\n\
}\n\
return charts;\n\
}\n\
const MOST_REGIONS = 60;\n\
const MOST_CELLS = 32;\n\
const MOST_CHANGES = 12;\n\
const KINDS_SHOWN = [VALID, IN_MEMORY, ON_DISK, UNTOUCHED];\n\
const tintOfKind = (kind) => `background: var(${PAGE_PAINTS.pages.tints[kind]})`;\n\
const add = (a, b) => a.map((value, at) => value + b[at]);\n\
const numbersOf = (counts) =>\n\
KINDS_SHOWN.map((kind) => (counts[kind] ? spelled(counts[kind]) : ''));\n\
const wordsOfStand = (stand) => {\n\
if (!stand) return 'free';\n\
return stand.state === RESERVED ? 'reserved' : protectionIn(stand.protection);\n\
};\n\
function makeRegions({ space: { spaces, isObserved }, sections: { useOf }, pages, view, shown }) {\n\
function countKinds(pid, { from, to, stand }, line) {\n\
const counts = PAGE_KINDS.map(() => 0);\n\
if (stand.state === RESERVED) counts[IS_RESERVED] = to - from;\n\
else for (let page = from; page < to; page++) counts[pages.kindAt(pid, page, stand, line)]++;\n\
return counts;\n\
}\n\
function typeOf(pid, stand, line) {\n\
const use = useOf(pid, stand.base, line);\n\
if (!use) return stand.type === MAPPED ? 'View' : isObserved ? 'Private' : 'Pages';\n\
if (!use.section) return `Stack of thread ${use.thread}`;\n\
return `${use.isCopy ? 'Copy view' : 'View'} of ${use.section.name}`;\n\
}\n\
function pageText(pid, page, line) {\n\
const stands = pages.after(pid, page, line);\n\
if (!stands) return 'free';\n\
const { kind, key, isCopied, stand } = stands;\n\
const moment = key?.after(line);\n\
const where = moment?.owner ? 'frame ' + moment.frame.name : kind === ON_DISK && moment.home;\n\
const protection = stand.state === RESERVED ? '' : protectionIn(stand.protection);\n\
const words = [protection, PAGE_KINDS[kind], isCopied && 'copied', key?.name, where];\n\
return words.filter(Boolean).join(', ');\n\
}\n\
function cellOf(pid, page, line) {\n\
const { kind, key, isCopied } = pages.after(pid, page, line);\n\
const title = `${addressOf(page)}: ${pageText(pid, page, line)}`;\n\
const target = key ? `data-page=\"${key.id}\"` : 'disabled';\n\
const look = `class=\"cell${isCopied ? ' copied' : ''}\" style=\"${tintOfKind(kind)}\"`;\n\
return `<button ${look} tabindex=\"-1\" ${target} title=\"${title}\"></button>`;\n\
}\n\
function pagesOf(pid, { from, to, stand, counts }, line) {\n\
if (stand.state === RESERVED) return quiet('reserved');\n\
const many = to - from;\n\
if (many > MOST_CELLS) return barOf(counts);\n\
const cells = Array.from({ length: many }, (_, at) => cellOf(pid, from + at, line));\n\
const guard = stand.protection & GUARD ? ' guarded' : '';\n\
const style = `style=\"width: ${16 * Math.min(16, many)}px\"`;\n\
return `<span class=\"cells${guard}\" ${style}>${cells.join('')}</span>`;\n\
}\n\
function barOf(counts) {\n\
const part = (kind) => `<b style=\"flex: ${counts[kind]}; ${tintOfKind(kind)}\"></b>`;\n\
return `<span class=\"bar\">${KINDS_SHOWN.map(part).join('')}</span>`;\n\
}\n\
function allocationsOf(pid, line) {\n\
const found = [];\n\
for (const region of spaces[pid].after(line)) {\n\
const last = found.at(-1);\n\
const run = { ...region, counts: countKinds(pid, region, line) };\n\
const isSame = last?.to === region.from && last.stand.base === region.stand.base;\n\
if (isSame) {\n\
last.runs.push(run);\n\
last.to = region.to;\n\
last.counts = add(last.counts, run.counts);\n\
} else found.push({ ...run, runs: [run] });\n\
}\n\
return found;\n\
}\n\
function rowsOf(pid, allocation, line, isShort) {\n\
const { from, to, stand, counts, runs } = allocation;\n\
const first = isObserved ? protectionIn(stand.first) : '';\n\
const row = (run, address, type) => [\n\
`<code class=\"${type ? '' : 'inner'}\">${addressOf(address)}</code>`,\n\
...[sizeOf(run.to - run.from), type, wordsOfStand(run.stand)],\n\
...[...numbersOf(run.counts), pagesOf(pid, run, line)],\n\
];\n\
const isPlain = runs.length === 1 && (!first || first === wordsOfStand(stand));\n\
const allocated = isPlain ? '' : quiet(', allocated ' + first);\n\
const type = typeOf(pid, stand, line) + allocated;\n\
if (runs.length === 1) return [row(runs[0], from, type)];\n\
const some = quiet(`${runs.length} runs`);\n\
const sum = [...numbersOf(counts), isShort ? barOf(counts) : ''];\n\
const head = [`<code>${addressOf(from)}</code>`, sizeOf(to - from), type, some, ...sum];\n\
const inner = (run) => row(run, run.from, '');\n\
return [head, ...(isShort ? [] : runs.map(inner))];\n\
}\n\
function spaceOf(pid, line) {\n\
const found = allocationsOf(pid, line);\n\
if (!found.length) return '';\n\
const many = found.reduce((all, { runs }) => all + 1 + runs.length, 0);\n\
const isShort = many > MOST_REGIONS && !view.showsAll;\n\
const shown = isShort ? found.slice(0, MOST_REGIONS) : found;\n\
const rows = shown.flatMap((one) => rowsOf(pid, one, line, isShort));\n\
const all = `Show all runs of ${spelled(found.length)} regions`;\n\
const heads = KINDS_SHOWN.map(\n\
(kind) => `<i style=\"${tintOfKind(kind)}\"></i>${capital(PAGE_KINDS[kind])}`,\n\
);\n\
return (\n\
`<h3>Process ${pid}: ${sumOf(found.map(({ counts }) => counts).reduce(add))}</h3>` +\n\
table(['Address', 'Size', 'Type', 'Protection', ...heads, 'Pages'], rows) +\n\
(isShort ? `<button data-press=\"a\" class=\"screen-only\">${all}</button>` : '')\n\
);\n\
}\n\
function sumOf(counts) {\n\
const committed = KINDS_SHOWN.reduce((all, kind) => all + counts[kind], 0);\n\
const some = KINDS_SHOWN.filter((kind) => counts[kind]);\n\
const parts = some.map((kind) => `${spelled(counts[kind])} ${PAGE_KINDS[kind]}`);\n\
const reserved = counts[IS_RESERVED] ? `, ${sizeOf(counts[IS_RESERVED])} reserved` : '';\n\
const what = isObserved ? 'committed' : 'that the log knows';\n\
return `${sizeOf(committed)} ${what}${reserved}; pages: ${parts.join(', ') || 'none'}`;\n\
}\n\
function show(line) {\n\
const tables = shown().map((pid) => spaceOf(pid, line));\n\
const none = quiet('No page is used.');\n\
return `<h2>Address spaces after line ${line}</h2>${tables.join('') || none}`;\n\
}\n\
function changesIn(line) {\n\
const found = [];\n\
for (const { pid, cut } of isObserved ? spaces.filter(Boolean) : []) {\n\
for (const { from, to, rects } of cut) {\n\
const [was, is] = [standIn(rects, line - 1), standIn(rects, line)];\n\
const last = found.at(-1);\n\
if (was === is) continue;\n\
const isAlike = last?.pid === pid && last.was === was && last.is === is;\n\
if (isAlike && last.to === from) last.to = to;\n\
else found.push({ pid, from, to, was, is });\n\
}\n\
}\n\
return found;\n\
}\n\
function changes(line) {\n\
return firstOf(changesIn(line), MOST_CHANGES, ({ pid, from, to, was, is }) => {\n\
const name = is && from === is.base ? nameOfUse(useOf(pid, is.base, line)) : '';\n\
const where = `Process ${pid}, <code>${addressOf(from)}</code>, ${sizeOf(to - from)}`;\n\
const what = `${wordsOfStand(was)} &rarr; ${wordsOfStand(is)}`;\n\
return `${where}${name && ` (${name})`}: ${what}`;\n\
});\n\
}\n\
return { show, changes, pageText };\n\
}\n\
const MOST_CHIPS = 24;\n\
const FEW_CHIPS = 10;\n\
const MOST_MOVES = 200;\n\
const MOST_OF_HISTORY = 80;\n\
const dot = (state) => `<i style=\"background: var(--state-${state})\"></i>`;\n\
const quiet = (text) => `<span class=\"quiet\">${text}</span>`;\n\
const button = (kind, id, text, look = 'reference') =>\n\
`<button class=\"${look}\" data-${kind}=\"${id}\">${text}</button>`;\n\
const addressBehind = ({ pid, page }) => (pid && page < 2 ** 20 ? ' ' + addressOf(page) : '');\n\
const withAddress = (thing) => thing.name + addressBehind(thing);\n\
function reference(kind, thing, text = thing.name) {\n\
const name = kind === 'place' ? text : button(kind, thing.id, text);\n\
return name + (thing.pid ? quiet(addressBehind(thing)) : '');\n\
}\n\
const chip = (state, kind, thing, text) => button(kind, thing.id, dot(state) + text, 'chip');\n\
const frameChip = ({ frame, owner, state }, more = '') =>\n\
chip(state, 'frame', frame, [frame.name, owner && withAddress(owner), more].join(' '));\n\
function firstOf(list, most, make) {\n\
const more = list.length - most;\n\
const rest = more > 0 ? [quiet(`and ${spelled(more)} more`)] : [];\n\
return [...list.slice(0, most).map(make), ...rest];\n\
}\n\
const listOf = (items) =>\n\
items.length ? `<ol class=\"moves\">${items.map((text) => `<li>${text}`).join('')}</ol>` : '';\n\
const section = (title, rows) => `<h3>${title}</h3><dl>${rows.join('')}</dl>`;\n\
function table(heads, rows) {\n\
const cells = (kind, texts) => texts.map((text) => `<${kind}>${text}</${kind}>`).join('');\n\
const body = rows.map((texts) => `<tr>${cells('td', [texts].flat())}</tr>`).join('');\n\
return `<table><thead><tr>${cells('th', heads)}</tr></thead><tbody>${body}</tbody></table>`;\n\
}\n\
function makePanels({ data, survey, waits, view, regions, charge, shown }) {\n\
function definition(title, things, make, note = '') {\n\
const most = shown().length > 3 || things.length > 200 ? FEW_CHIPS : MOST_CHIPS;\n\
const chips = `<div class=\"chips\">${firstOf(things, most, make).join('')}</div>`;\n\
const body = things.length ? chips : note ? '' : quiet('none');\n\
return `<dt>${title} <b>${spelled(things.length)}</b></dt><dd>${note}${body}</dd>`;\n\
}\n\
function show(state) {\n\
const { number, text, answer } = data.lines[view.line];\n\
const moves = survey.movesOf(number);\n\
const parts = {\n\
line:\n\
lineOf(data.lines[view.line]) +\n\
listOf(regions.changes(number)) +\n\
movesOf(moves) +\n\
unwrittenOf(data.lines[view.line], moves, state),\n\
state: `<h2>After line ${number}</h2>` + listsOf(state) + setsOf(state) + homesOf(state),\n\
history: view.followed ? historyOf(view.followed) : '',\n\
};\n\
for (const id in parts) element(id).innerHTML = parts[id];\n\
element('history').hidden = !view.followed;\n\
element('status').textContent = `Line ${number}: ${text}, ${answer}, ${moves.length} moves`;\n\
}\n\
function lineOf({ number, text, answer, isOk }) {\n\
const names = (some) => (some ? ' ' + quiet(some) : '');\n\
const said = `&rarr; <code class=\"${isOk ? '' : 'not-ok'}\">${answer}</code>`;\n\
const sum = charge.refusalAt(number);\n\
const why =\n\
sum &&\n\
`<p class=\"not-ok\">${spelled(sum.charged)} charged + ${sum.asked} asked for &gt; ` +\n\
`${spelled(sum.most)}, the limit</p>`;\n\
return (\n\
`<h2>Line ${number}</h2><code>${text}</code>${names(namesInLine(text))} ` +\n\
(answer && said + names(namesInAnswer(text, answer))) +\n\
(why ?? '')\n\
);\n\
}\n\
function movesOf(moves) {\n\
if (!moves.length) return '<p class=\"quiet\">No page frame moves.</p>';\n\
const partOf = ({ frame, class: { word }, home }) => frame ?? word + home.split(' ')[0];\n\
const parts = [...Map.groupBy(moves, partOf)];\n\
const items = firstOf(parts, MOST_MOVES, ([part, some]) =>\n\
typeof part === 'string' ? alike(some) : turnOf(part, some),\n\
);\n\
const each = firstOf(moves, MOST_MOVES, (move) => sentenceOf(move, reference) + passing(move));\n\
const open = view.isUnfolded ? ' open' : '';\n\
const title = `<summary>${spelled(moves.length)} moves, in their order</summary>`;\n\
const fold = `<details data-fold${open}>${title}${listOf(each)}</details>`;\n\
return listOf(items) + (moves.length > 1 ? fold : '');\n\
}\n\
function unwrittenOf({ kind, text }, moves, { lists, requests, slots }) {\n\
const begun = moves.filter(({ class: { word } }) => word === 'write').length;\n\
const left = lists[MODIFIED].length;\n\
const mayGoOn = begun < Number(text.split(' ')[1]) && requests.length < data.machine.depth;\n\
if (kind !== 'writer' || !mayGoOn || !left || slots) return '';\n\
const pages = spelled(left) + (left > 1 ? ' modified pages are' : ' modified page is');\n\
return `<p class=\"not-ok\">No slot of the paging file is free: ${pages} not written.</p>`;\n\
}\n\
function turnOf(frame, moves) {\n\
const events = moves.filter(({ class: { group } }) => group in survey.numbers);\n\
const some = events.length ? events : moves.slice(-1);\n\
const told = some.map((move) => sentenceOf(move, reference));\n\
const [was, is] = [frame.after(view.line - 1), moves.at(-1)];\n\
const stand = ({ state, owner }) =>\n\
`${dot(state)}${STATES[state]} ${owner ? withAddress(owner) : ''}`.trimEnd();\n\
const isSame = was.state === is.state && was.owner === is.owner;\n\
const turn = isSame ? stand(is) + ', as before' : `${stand(was)} &rarr; ${stand(is)}`;\n\
return `${told.join('; ')}<span class=\"turn\">frame ${frame.name}: ${turn}</span>`;\n\
}\n\
function passing({ was, state, frame }) {\n\
const [from, to] = [was, state].map((one) => dot(one) + STATES[one]);\n\
if (was === state || !frame) return '';\n\
return `<span class=\"turn\">frame ${frame.name}: ${from} &rarr; ${to}</span>`;\n\
}\n\
function alike(moves) {\n\
const [first, last] = [moves[0], moves.at(-1)];\n\
if (moves.length === 1) return sentenceOf(first, reference);\n\
const range = [first, last].map(({ page }) => reference('page', page)).join(' .. ');\n\
const sentence = sentenceOf(first).replace(first.page.name, 'each');\n\
return `${spelled(moves.length)} pages, ${range}: ${sentence}`;\n\
}\n\
function listsOf({ lists, requests }) {\n\
const list = (frames, state) =>\n\
definition(dot(state) + capital(STATES[state]), frames, (frame) => frameChip(frame));\n\
const request = (frame) =>\n\
frameChip(frame, (frame.request === READ ? 'from ' : 'to ') + (frame.backing || 'zeros'));\n\
const { threads } = lastUpTo(waits, view.line) ?? { threads: [] };\n\
const thread = (text) => `<span class=\"chip\">${text}</span>`;\n\
return section('Lists, the first to be taken first', [\n\
...lists.map(list),\n\
definition(dot(READING) + dot(WRITING) + 'I/O in flight', requests, request),\n\
waits.length ? definition('Threads that wait', threads, thread) : '',\n\
]);\n\
}\n\
function setsOf({ sets }) {\n\
const age = data.hasAges ? ({ age }) => ` age ${age}` : () => '';\n\
const make = (one) =>\n\
chip(ACTIVE, 'frame', one.frame, one.page + addressBehind(one) + age(one));\n\
const live = data.processes.filter(({ line }) => line <= view.line);\n\
const some = live.filter(({ pid }) => shown().includes(pid));\n\
const rows = some.map(({ pid, min, max }) => {\n\
const limits = quiet(`min ${min}, max ${max}`) + agesIn(sets[pid]);\n\
return definition(`${dot(ACTIVE)}Process ${pid}`, sets[pid], make, limits);\n\
});\n\
const more = live.length - some.length;\n\
const others = more ? quiet(`and ${more} other processes, by Process above`) : '';\n\
const order = data.hasAges ? ', oldest first' : '';\n\
return rows.length ? section(`Working sets (active pages${order})`, rows) + others : '';\n\
}\n\
function agesIn(set) {\n\
if (!data.hasAges || !set.length) return '';\n\
const ages = [...Map.groupBy(set, ({ age }) => age)].reverse();\n\
const counts = ages.map(([age, some]) => `${spelled(some.length)} of age ${age}`);\n\
return quiet('; ' + counts.join(', '));\n\
}\n\
function homesOf({ away, slots, allSlots }) {\n\
const row = (title, state, isHome, note) => {\n\
const make = ({ page, home }) =>\n\
chip(state, 'page', page, `${withAddress(page)} ${home}`);\n\
return definition(title, away.filter(({ home }) => isHome(home)), make, note);\n\
};\n\
const inUse = quiet(`${spelled(allSlots - slots)} of ${spelled(allSlots)} slots in use`);\n\
return section('Pages without a frame', [\n\
row('Not used yet', ZEROED, (home) => !home),\n\
row('Paging file', STANDBY, isSlot, inUse),\n\
row('Files', STANDBY, (home) => home.startsWith('block')),\n\
]);\n\
}\n\
function historyOf({ kind, thing }) {\n\
const { moves } = thing;\n\
const first = Math.max(0, thing.countUpTo(view.line - 1) - MOST_OF_HISTORY / 2);\n\
const part = moves.slice(first, first + MOST_OF_HISTORY);\n\
const near = part.length < moves.length ? '; those near this line' : '';\n\
const inWords = (kind, it, text) => text + addressBehind(it);\n\
const row = ([line, some]) => [\n\
button('line', line, line),\n\
some.at(-1).frame ? dot(some.at(-1).state) : '',\n\
(line === view.line ? '<span class=\"chosen\"></span>' : '') +\n\
some.map((move) => sentenceOf(move, inWords)).join('; '),\n\
];\n\
const rows = [...Map.groupBy(part, ({ line }) => line)].map(row);\n\
return (\n\
`<h2><span>History of ${kind} ${withAddress(thing)}</span>` +\n\
'<button data-press=\"Escape\">Close</button></h2>' +\n\
`<p class=\"quiet\">${spelled(moves.length)} moves${near}</p>` +\n\
`<div class=\"rows\">${table([], rows)}</div>`\n\
);\n\
}\n\
return { show };\n\
}\n\
const MOST_FRAMES = 64;\n\
const MOST_FAULTY_PAGES = 12;\n\
const MOST_SLOTS = 512;\n\
const MOST_SECTIONS = 40;\n\
function makeTables({ data, view, sections: { sections, viewsOf }, pages: { keyKind } }) {\n\
const title = (text) => `<h2>${text} after line ${view.line}</h2>`;\n\
function show(state) {\n\
element('sections').innerHTML = sectionsOf();\n\
element('slots').innerHTML = slotsOf(state);\n\
element('frames').innerHTML = title('Page frames') + framesOf(state);\n\
}\n\
function pagesOf({ area, pages }) {\n\
const keys = Array.from({ length: pages }, (_, at) => data.pages.get(idOf(2 * area + 1, at)));\n\
return keys.map((key) => ({ key, kind: keyKind(key, view.line) }));\n\
}\n\
function sectionsOf() {\n\
const live = sections.filter(({ line }) => line <= view.line);\n\
const kinds = KINDS_SHOWN.map((kind) => capital(PAGE_KINDS[kind]));\n\
const rows = firstOf(live, MOST_SECTIONS, (one) => {\n\
const found = pagesOf(one);\n\
const counts = PAGE_KINDS.map((_, kind) => found.filter((page) => page.kind === kind).length);\n\
const views = viewsOf(one, view.line).map(\n\
({ pid, base, isCopy }) => `${pid}:${addressOf(base)}${isCopy ? ' copy' : ''}`,\n\
);\n\
const cells = found.length > MOST_CELLS ? '' : found.map(cellOf).join('');\n\
const name = `${one.name} ${quiet('s' + one.area)}`;\n\
const places = firstOf(views, 6, (text) => text).join(', ');\n\
const shown = `<span class=\"cells\">${cells}</span>`;\n\
return [name, one.pages, places || quiet('none'), ...numbersOf(counts), shown];\n\
});\n\
const heads = ['Section', 'Pages', 'Views', ...kinds, 'Frames'];\n\
return rows.length ? title('Sections') + table(heads, rows) : '';\n\
}\n\
function cellOf({ key, kind }) {\n\
const moment = key?.after(view.line);\n\
const where = moment?.owner ? 'frame ' + moment.frame.name : moment?.home || 'zeros';\n\
const target = key ? `data-page=\"${key.id}\"` : 'disabled';\n\
const text = `${key?.name ?? 'no key'}: ${PAGE_KINDS[kind]}, ${where}`;\n\
const look = `class=\"cell named\" style=\"${tintOfKind(kind)}\" title=\"${text}\"`;\n\
const name = moment?.owner ? moment.frame.name : '';\n\
return `<button ${look} tabindex=\"-1\" ${target}>${name}</button>`;\n\
}\n\
function slotsOf({ frames, away, allSlots, slots }) {\n\
const held = new Map();\n\
const hold = (home, page, kind) =>\n\
isSlot(home) && held.set(Number(home.slice(5)), { page, kind });\n\
for (const { home, page } of away) hold(home, page, 'on disk alone');\n\
for (const { backing, owner, request, frame } of frames) {\n\
const isWritten = request === WRITE || request === WRITE_AGAIN;\n\
hold(backing, owner, isWritten ? 'being written' : `also in frame ${frame.name}`);\n\
}\n\
if (!allSlots) return '';\n\
const all = [...held.keys()].sort((a, b) => a - b);\n\
const isAll = allSlots <= MOST_SLOTS;\n\
const every = isAll ? Array.from({ length: allSlots }, (_, slot) => slot) : all;\n\
const some = isAll || all.length <= MOST_SLOTS ? '' : `, the first ${MOST_SLOTS} of them here`;\n\
const sum = `${spelled(allSlots - slots)} of ${spelled(allSlots)} slots in use${some}`;\n\
const shown = every.slice(0, MOST_SLOTS);\n\
const cells = shown.map((slot) => slotCell(slot, held.get(slot))).join('');\n\
return `${title('Paging file')}<p class=\"quiet\">${sum}</p><div class=\"cells\">${cells}</div>`;\n\
}\n\
const SLOT_TINTS = { 'on disk alone': READING, 'being written': WRITING };\n\
function slotCell(slot, holds) {\n\
const { page, kind } = holds ?? {};\n\
const tint = holds ? SLOT_TINTS[kind] ?? STANDBY : ZEROED;\n\
const name = page ? withAddress(page) : 'a page that was deleted';\n\
const text = `slot ${slot}: ${holds ? `${name}, ${kind}` : 'free'}`;\n\
const target = page ? `data-page=\"${page.id}\"` : 'disabled';\n\
const look = `class=\"cell\" style=\"background: var(${tintOf(tint)})\" title=\"${text}\"`;\n\
return `<button ${look} tabindex=\"-1\" ${target}></button>`;\n\
}\n\
function framesOf({ frames }) {\n\
const shown = view.showsAll ? frames : frames.slice(0, MOST_FRAMES);\n\
const heads = ['Frame', 'State', 'Page', 'Changed', 'On the device', 'Valid places', 'I/O'];\n\
const row = ({ frame, state, owner, isChanged, backing, shares, request }) => [\n\
reference('frame', frame),\n\
dot(state) + capital(STATES[state]),\n\
owner ? reference('page', owner) : '',\n\
owner ? (isChanged ? 'changed' : 'no') : '',\n\
backing,\n\
shares || '',\n\
request ? REQUESTS[request] : '',\n\
];\n\
const all = `<button data-press=\"a\" class=\"screen-only\">Show all ${frames.length}</button>`;\n\
return table(heads, shown.map(row)) + (shown.length < frames.length ? all : '');\n\
}\n\
function countFaults() {\n\
const faults = data.processes.map(() => new Map([[null, FAULTS.map(() => 0)]]));\n\
for (const { class: found, line, page } of data.moves) {\n\
const fault = FAULTS.findIndex(({ group }) => group === found.group);\n\
if (fault < 0) continue;\n\
const pages = faults[data.lines[line].values[0]];\n\
if (!pages.has(page)) pages.set(page, FAULTS.map(() => 0));\n\
pages.get(null)[fault]++;\n\
pages.get(page)[fault]++;\n\
}\n\
return faults;\n\
}\n\
function faultsOf(pages, pid) {\n\
const row = ([page, counts]) => {\n\
const [hard, soft] = counts;\n\
const share = hard + soft ? Math.floor((100 * hard) / (hard + soft)) + ' %' : '';\n\
const name = page ? reference('page', page) : `<b>Process ${pid}</b>`;\n\
return [name, ...counts.map((count) => (count ? spelled(count) : '')), share];\n\
};\n\
const [sum, ...list] = pages;\n\
list.sort((a, b) => b[1][0] - a[1][0] || b[1][1] - a[1][1] || a[0].id - b[0].id);\n\
return list.length ? [row(sum), ...firstOf(list, MOST_FAULTY_PAGES, row)] : [];\n\
}\n\
function showFaults() {\n\
const kinds = FAULTS.map(({ title }) => title.replace(' faults', ''));\n\
const heads = ['Process, page', ...kinds, 'Hard of hard and soft'];\n\
const calls = (wanted) => data.moves.filter(({ class: { word } }) => word === wanted).length;\n\
const failed = (count) => (count ? ` and ${spelled(count)} failed` : '');\n\
element('faults').innerHTML =\n\
`<h2>Faults in the whole log</h2>${table(heads, countFaults().flatMap(faultsOf))}` +\n\
`<p class=\"quiet\">Device calls: ${spelled(calls('got'))}${failed(calls('bad'))} reads, ` +\n\
`${spelled(calls('wrote'))}${failed(calls('lost'))} writes.</p>`;\n\
}\n\
return { show, showFaults };\n\
}\n\
const FAR = 10;\n\
const DRAG = 8;\n\
const FEWEST_LINES = 4;\n\
function makeMoves({ data: { count }, survey, view }, show) {\n\
function zoom(from, to, changes) {\n\
const more = clamp(Math.round(to - from), Math.min(FEWEST_LINES, count) - 1, count - 1);\n\
const first = clamp(Math.round(from), 1, count - more);\n\
show({ ...changes, first, last: first + more });\n\
}\n\
function choose(wanted, changes) {\n\
const line = clamp(Math.round(wanted) || 1, 1, count);\n\
const { first, last } = view;\n\
const from = line >= first && line <= last ? first : line - ((last - first) >> 1);\n\
zoom(from, from + last - first, { ...changes, line });\n\
}\n\
function zoomBy(factor, kept = view.line) {\n\
const { first, last } = view;\n\
const many = (last - first + 1) * factor;\n\
const isSeen = kept >= first && kept <= last;\n\
const start = isSeen ? kept - (kept - first) * factor : kept - many / 2;\n\
zoom(start, start + many - 1);\n\
}\n\
function hop(step) {\n\
const sum = survey.numbers[element('event').value];\n\
let line = view.line + step;\n\
while (line >= 1 && line <= count && sum[line] === sum[line - 1]) line += step;\n\
if (line >= 1 && line <= count) choose(line);\n\
}\n\
return { zoom, choose, zoomBy, hop };\n\
}\n\
function attachHands(page, show) {\n\
const { data, view, charts } = page;\n\
const { zoom, choose, zoomBy, hop } = makeMoves(page, show);\n\
const follow = (kind, thing) => thing && { followed: { kind, thing } };\n\
const KEYS = {\n\
ArrowLeft: (step) => choose(view.line - step),\n\
ArrowRight: (step) => choose(view.line + step),\n\
Home: () => choose(1),\n\
End: () => choose(data.count),\n\
n: () => hop(1),\n\
p: () => hop(-1),\n\
'+': () => zoomBy(0.5),\n\
'=': () => zoomBy(0.5),\n\
'-': () => zoomBy(2),\n\
0: () => zoom(1, data.count),\n\
a: () => show({ showsAll: true }),\n\
Escape: () => show({ followed: null }),\n\
};\n\
document.addEventListener('keydown', (event) => {\n\
const { target, key, shiftKey, ctrlKey, metaKey, altKey } = event;\n\
const name = key.length === 1 ? key.toLowerCase() : key;\n\
const isElsewhere = target.tagName === 'SELECT' || /number|search/.test(target.type);\n\
if (!Object.hasOwn(KEYS, name) || isElsewhere || ctrlKey || metaKey || altKey) return;\n\
event.preventDefault();\n\
KEYS[name](shiftKey ? FAR : 1);\n\
});\n\
document.addEventListener('click', ({ target }) => {\n\
const { press, line, frame, page: id } = target.closest('button')?.dataset ?? {};\n\
if (press) KEYS[press](1);\n\
else if (line) choose(Number(line));\n\
else if (frame) show(follow('frame', data.frames[frame]));\n\
else if (id) show(follow('page', data.pages.get(Number(id))));\n\
});\n\
const chooseValue = ({ target }) => choose(Number(target.value));\n\
element('slider').addEventListener('input', chooseValue);\n\
element('number').addEventListener('change', chooseValue);\n\
for (const name of ['paint', 'tint', 'space']) {\n\
element(name).addEventListener('change', ({ target }) =>\n\
show({ [name]: name === 'space' ? Number(target.value) : target.value }),\n\
);\n\
}\n\
const noteFold = ({ target }) => {\n\
if ('fold' in target.dataset) view.isUnfolded = target.open;\n\
};\n\
document.addEventListener('toggle', noteFold, true);\n\
function find(text) {\n\
const [, pid, address] = /^(?:(\\w+):)?(0x[0-9a-f]+|\\d+)$/i.exec(text) ?? [];\n\
const named = [...data.pages.values()].find(({ name }) => name === text);\n\
const frame = data.frames[/^frame (\\d+)$/.exec(text)?.[1]];\n\
if (named || frame) return show(follow(frame ? 'frame' : 'page', frame ?? named));\n\
if (address && (pid || text.startsWith('0x'))) {\n\
const found = page.pages.keyOf(\n\
...[Number(pid ?? (view.space || 1)), Math.floor(address / PAGE), view.line],\n\
);\n\
return found ? show(follow('page', found)) : 'no such page';\n\
}\n\
if (/^[ps]\\d+\\.\\d+$/.test(text)) return 'no such page';\n\
const has = ({ number, text: line, answer }) => number && `${line} ${answer}`.includes(text);\n\
const next = data.lines.slice(view.line + 1).find(has) ?? data.lines.find(has);\n\
return next ? choose(next.number) : 'no line has this';\n\
}\n\
element('find').addEventListener('change', ({ target }) => {\n\
const text = target.value.trim().replace(/^key /, '');\n\
target.setCustomValidity((text && find(text)) || '');\n\
target.reportValidity();\n\
});\n\
attachPointer(page, { zoom, choose, zoomBy, follow });\n\
addEventListener('message', ({ data: said }) => {\n\
if (said?.melzudek === 'line') choose(Number(said.line), { isTold: true });\n\
});\n\
function repaintOnPaper({ type }) {\n\
const isPaper = type === 'beforeprint';\n\
document.documentElement.classList.toggle('paper', isPaper);\n\
charts.draw();\n\
if (isPaper) charts.mark(true);\n\
}\n\
new ResizeObserver(charts.fit).observe(element('sheet'));\n\
matchMedia('(prefers-color-scheme: dark)').addEventListener('change', charts.draw);\n\
addEventListener('beforeprint', repaintOnPaper);\n\
addEventListener('afterprint', repaintOnPaper);\n\
return { choose, zoom };\n\
}\n\
function attachPointer({ data, survey, view, charts, pages, regions }, hands) {\n\
const { zoom, choose, zoomBy, follow } = hands;\n\
const [plot, overview, tip] = ['plot', 'overview', 'tip'].map(element);\n\
let grip = null;\n\
plot.addEventListener('pointerdown', ({ offsetX }) => (grip = offsetX));\n\
plot.addEventListener('pointerup', ({ offsetX, offsetY }) => {\n\
const [from, to] = [Math.min(grip, offsetX), Math.max(grip, offsetX)];\n\
const isHeld = grip !== null && charts.axis.isInside(offsetX);\n\
grip = null;\n\
if (!isHeld) return;\n\
if (to - from > DRAG) return zoom(charts.axis.lineAt(from), charts.axis.lineAt(to));\n\
const [line, spot] = [charts.axis.lineAt(offsetX), charts.pageAt(offsetY)];\n\
if (spot) choose(line, follow('page', pages.keyOf(spot.pid, spot.page, line)));\n\
else choose(line, follow('frame', charts.frameAt(offsetY)));\n\
});\n\
function turnWheel(event) {\n\
if (!event.ctrlKey) return;\n\
event.preventDefault();\n\
zoomBy(event.deltaY > 0 ? 1.25 : 0.8, charts.axis.lineAt(event.offsetX));\n\
}\n\
plot.addEventListener('wheel', turnWheel, { passive: false });\n\
function spotText({ pid, page, to }, line) {\n\
const many = to - page > 1 ? ` and ${spelled(to - page - 1)} pages more, folded` : '';\n\
return `Process ${pid}, ${addressOf(page)}${many}: ${regions.pageText(pid, page, line)}`;\n\
}\n\
function tipText({ number, text, answer }, frame, spot) {\n\
const said = `Line ${number}: ${text}${answer && ' \\u2192 ' + answer}`;\n\
if (spot) return `${said}. ${spotText(spot, number)}`;\n\
if (!frame) return [said, ...eventsIn(survey, number, number)].join('. ');\n\
const { state, owner, isChanged } = frame.after(number);\n\
const page = owner && owner.name + addressBehind(owner);\n\
const words = [STATES[state], page, owner && isChanged && 'changed'];\n\
return `${said}. Frame ${frame.name}: ${words.filter(Boolean).join(', ')}`;\n\
}\n\
plot.addEventListener('pointermove', ({ offsetX, offsetY, clientX, clientY }) => {\n\
tip.hidden = !charts.axis.isInside(offsetX);\n\
if (tip.hidden) return;\n\
const line = data.lines[charts.axis.lineAt(offsetX)];\n\
tip.textContent = tipText(line, charts.frameAt(offsetY), charts.pageAt(offsetY));\n\
tip.style.left = clamp(clientX + 14, 0, Math.max(0, innerWidth - 350)) + 'px';\n\
tip.style.top = clientY + 16 + 'px';\n\
});\n\
const hideTip = () => (tip.hidden = true);\n\
for (const type of ['pointerleave', 'pointercancel']) plot.addEventListener(type, hideTip);\n\
document.documentElement.addEventListener('pointerleave', hideTip);\n\
for (const type of ['scroll', 'blur', 'keydown', 'wheel']) {\n\
addEventListener(type, hideTip, { passive: true });\n\
}\n\
function slide({ buttons, offsetX }) {\n\
const half = (view.last - view.first) / 2;\n\
const line = charts.whole.lineAt(offsetX);\n\
if (buttons) zoom(line - half, line + half);\n\
}\n\
overview.addEventListener('pointerdown', (event) => {\n\
overview.setPointerCapture(event.pointerId);\n\
slide(event);\n\
});\n\
overview.addEventListener('pointermove', slide);\n\
}\n\
const ADDRESS_WAIT = 300;\n\
const TABLES_WAIT = 40;\n\
const placeOf = (hash) => Object.fromEntries(new URLSearchParams(hash.slice(1)));\n\
function factsOf({ data, survey }) {\n\
const { machine, processes, count, moves } = data;\n\
const events = ['', ...eventsIn(survey, 1, count)].join(', ').replace(',', ':');\n\
const slots = survey.numbers.allSlots[count];\n\
return (\n\
`${spelled(machine.frames)} page frames, ${spelled(slots)} paging-file slots, ` +\n\
`${spelled(machine.blocks)} file blocks; processes: ${Object.keys(processes).length}. ` +\n\
`${spelled(count)} lines, ${spelled(moves.length)} moves${events}.`\n\
);\n\
}\n\
function endOf({ line, text, answer }) {\n\
if (answer.startsWith('bad line')) {\n\
return `Line ${line} is no line: the run ended here with status 3 (${answer}): ${text}`;\n\
}\n\
if (answer.startsWith('too long')) return `The run ended here with status 8 (${answer}).`;\n\
return `The run ended before line ${line} of its script: ${text}`;\n\
}\n\
function addressOfView({ line, first, last, paint, tint, space, followed }, count) {\n\
const isWhole = first === 1 && last === count;\n\
const parts = {\n\
line,\n\
...(isWhole ? {} : { from: first, to: last }),\n\
...(followed && { [followed.kind]: followed.thing.name }),\n\
...(paint !== 'state' && { by: paint }),\n\
...(tint !== 'pages' && { addresses: tint }),\n\
...(space && { process: space }),\n\
};\n\
return '#' + Object.entries(parts).map((pair) => pair.join('=')).join('&');\n\
}\n\
function viewOfAddress(place, data, paints) {\n\
const has = (list, name) => Object.hasOwn(list, name ?? '');\n\
const frame = data.frames[place.frame];\n\
const thing = frame ?? [...data.pages.values()].find(({ name }) => name === place.page);\n\
return {\n\
first: 1,\n\
last: data.count,\n\
paint: has(paints, place.by) ? place.by : 'state',\n\
tint: has(PAGE_PAINTS, place.addresses) ? place.addresses : 'pages',\n\
space: data.processes[Math.round(place.process)]?.pid ?? 0,\n\
followed: thing ? { kind: frame ? 'frame' : 'page', thing } : null,\n\
};\n\
}\n\
function fillChoices({ data, survey, space, charts }) {\n\
const option = ({ group, words }) => new Option(words.replace('*', ''), group);\n\
element('event').append(new Option('line with moves', 'moves'), ...survey.tracks.map(option));\n\
element('paint').append(...Object.keys(charts.paints).map((name) => new Option(name)));\n\
element('tint').append(new Option('state of pages', 'pages'));\n\
if (space.isObserved) element('tint').append(new Option('protection', 'protection'));\n\
const few = data.processes.length > MOST_STRIPS + 3 ? 'the busiest' : 'all';\n\
const pids = data.processes.filter(Boolean).map(({ pid }) => new Option(pid, pid));\n\
element('space').append(new Option(few, 0), ...pids);\n\
element('number').max = element('slider').max = data.count;\n\
}\n\
function showPage(page) {\n\
const { data, survey, view } = page;\n\
page.charge = makeCharge(page);\n\
page.regions = makeRegions(page);\n\
const [panels, tables] = [makePanels(page), makeTables(page)];\n\
const charts = (page.charts = makeCharts(page));\n\
let [later, waiting, kept, told] = [0, 0, location.hash, 0];\n\
function show({ isTold, ...changes }) {\n\
Object.assign(view, changes);\n\
element('number').value = element('slider').value = view.line;\n\
charts.show();\n\
const state = survey.stateAfter(view.line);\n\
panels.show(state);\n\
clearTimeout(later);\n\
later = setTimeout(() => showTables(state), TABLES_WAIT);\n\
clearTimeout(waiting);\n\
waiting = setTimeout(keepPlace, ADDRESS_WAIT);\n\
tellParent(isTold);\n\
}\n\
function showTables(state) {\n\
element('spaces').innerHTML = page.regions.show(view.line);\n\
tables.show(state);\n\
}\n\
function keepPlace() {\n\
if (parent !== window) return;\n\
kept = addressOfView(view, data.count);\n\
history.replaceState(null, '', kept);\n\
}\n\
function tellParent(isTold) {\n\
const isNews = told !== view.line && !isTold;\n\
told = view.line;\n\
if (isNews && parent !== window) parent.postMessage({ melzudek: 'chosen', line: told }, '*');\n\
}\n\
fillChoices(page);\n\
const { choose, zoom } = attachHands(page, show);\n\
function goTo(place) {\n\
Object.assign(view, viewOfAddress(place, data, charts.paints));\n\
for (const name of ['paint', 'tint', 'space']) element(name).value = view[name];\n\
const [from, to] = [Number(place.from), Number(place.to)];\n\
if (from) zoom(from, to || data.count);\n\
const first = data.lines.findIndex(({ kind }) => /access|thread/.test(kind));\n\
choose(Number(place.line) || (first > 0 ? first : data.count));\n\
}\n\
goTo(placeOf(location.hash));\n\
addEventListener('hashchange', () => location.hash !== kept && goTo(placeOf(location.hash)));\n\
setTimeout(() => {\n\
tables.showFaults();\n\
const strangers = findStrangers(page);\n\
if (strangers) warn(strangers);\n\
}, 0);\n\
}\n\
function start() {\n\
const data = readData();\n\
const waits = readUses(data);\n\
const survey = surveyLog(data);\n\
const view = { line: 1, first: 1, last: data.count, paint: 'state', tint: 'pages', space: 0 };\n\
const page = { data, waits, survey, view, space: readSpaces(data), sections: readSections(data) };\n\
page.pages = makePages(page);\n\
page.shown = chooseProcesses(page);\n\
if (data.name) {\n\
document.title = `${data.name}: memory, line by line`;\n\
element('title').textContent = document.title;\n\
}\n\
element('facts').textContent = data.count ? factsOf(page) : 'The log is empty.';\n\
if (survey.trouble) warn(survey.trouble);\n\
if (data.early) warn(endOf(data.early));\n\
if (data.count) showPage(page);\n\
document.documentElement.dataset.ready = Math.round(performance.now());\n\
return page;\n\
}\n\
const page = start();\n\
</script>\n\
</body>\n\
</html>\n\
";

//! The page, as tools/page_constant.py makes it of web/index.html.

/// The page of the address `/`, and of `/two`.
pub(crate) const PAGE: &str = r##"<!doctype html>
<html lang="en">
<head>
<meta charset="utf-8">
<meta name="viewport" content="width=device-width, initial-scale=1">
<title>Jackclover</title>
<link rel="icon" href="data:image/svg+xml,%3Csvg xmlns='http://www.w3.org/2000/svg' viewBox='0 0 24 24'
 fill='%231a8754'%3E%3Ccircle cx='8' cy='8' r='5'/%3E%3Ccircle cx='16' cy='8' r='5'/%3E%3Ccircle cx='8'
 cy='16' r='5'/%3E%3Ccircle cx='16' cy='16' r='5'/%3E%3C/svg%3E">
<style>
:root { color-scheme: light dark; --ground: light-dark(#f3f5f1, #121517); --paper: light-dark(#fff, #1a1e21);
  --raised: light-dark(#f9faf8, #20262a); --ink: light-dark(#1c2420, #e4e9e6); --soft: light-dark(#5f6b64, #98a49d);
  --line: light-dark(#e4e8e2, #2a3136); --edge: light-dark(#cfd6ce, #3a4349);
  --accent: light-dark(#157a4b, #4fc78d); --on-accent: light-dark(#fff, #07190f);
  --tint: light-dark(#e4f4eb, #173528); --bad: light-dark(#b3261e, #ff938a);
  --bad-tint: light-dark(#fdecea, #3c1d1b); --fresh: light-dark(#ffedb0, #544613);
  --chip: light-dark(#eaf0fb, #25324a); --chip-ink: light-dark(#234a8f, #a9c6ff);
  --formula: light-dark(#f6f7fc, #1c2128); --shade: light-dark(#1c24201a, #0008); --row: 32px; --head: 36px;
  --gutter: 52px; }
[data-theme=light] { color-scheme: light; } [data-theme=dark] { color-scheme: dark; } * { box-sizing: border-box; }
[hidden] { display: none !important; } html, body { height: 100%; margin: 0; }
body { display: flex; flex-direction: column; background: var(--ground); color: var(--ink);
  font: 14px/1.45 Inter, system-ui, "Segoe UI", Roboto, "Noto Sans", sans-serif; }
button, input, select, textarea { font: inherit; color: inherit; }
button { display: inline-flex; align-items: center; gap: 6px; padding: 5px 11px; cursor: pointer;
  border: 1px solid var(--edge); border-radius: 7px; background: var(--paper); white-space: nowrap; }
button:hover:not(:disabled) { border-color: var(--accent); color: var(--accent); }
button:disabled { opacity: .45; cursor: default; }
button.main { background: var(--accent); border-color: var(--accent); color: var(--on-accent); }
button.main:hover:not(:disabled) { filter: brightness(1.08); color: var(--on-accent); }
button.plain { border-color: transparent; background: none; } button.risky { color: var(--bad); }
:focus-visible { outline: 2px solid var(--accent); outline-offset: 1px; }
header { display: flex; align-items: center; gap: 8px; padding: 9px 14px; flex-wrap: wrap; }
.brand { display: flex; align-items: center; gap: 8px; font-weight: 650; font-size: 16px; letter-spacing: -.01em;
  margin-right: 6px; }
.brand svg { width: 22px; height: 22px; fill: var(--accent); } .gap { flex: 1; } .group { display: flex; gap: 4px; }
#who { display: flex; align-items: center; gap: 7px; padding: 3px 11px 3px 4px; border-radius: 99px;
  background: var(--paper); border: 1px solid var(--line); font-weight: 550; }
#who i { width: 22px; height: 22px; border-radius: 50%; display: grid; place-items: center;
  background: var(--accent); color: var(--on-accent); font: 600 11px/1 inherit; font-style: normal; }
#state { display: flex; align-items: center; gap: 7px; color: var(--soft); font-size: 13px; }
#state::before { content: ""; width: 8px; height: 8px; border-radius: 50%; background: var(--edge); }
#state.live::before { background: var(--accent); box-shadow: 0 0 0 3px var(--tint); }
#state.lost { color: var(--bad); } #state.lost::before { background: var(--bad); }
nav { display: flex; align-items: end; gap: 2px; padding: 0 14px; overflow-x: auto; flex: none; scrollbar-width: none; }
nav button { border: 1px solid transparent; border-bottom: 0; border-radius: 9px 9px 0 0; background: none;
  color: var(--soft); padding: 7px 14px; font-weight: 550; }
nav button[aria-selected=true] { background: var(--paper); border-color: var(--line); color: var(--ink);
  box-shadow: inset 0 2px var(--accent); }
nav .rules { font-weight: 450; font-size: 13px; }
nav hr { border: 0; width: 1px; height: 18px; margin: 0 8px 8px; background: var(--edge); flex: none; }
#bar { display: flex; align-items: center; gap: 10px; height: 36px; padding: 0 14px; flex: none;
  background: var(--paper); border: solid var(--line); border-width: 1px 0; overflow: hidden; }
#bar b { font-weight: 600; white-space: nowrap; }
#bar span { color: var(--soft); white-space: nowrap; overflow: hidden; text-overflow: ellipsis; }
#bar code { font: 13px ui-monospace, "Cascadia Code", "DejaVu Sans Mono", monospace; }
#sheet { flex: 1; overflow: auto; background: var(--paper); position: relative; outline: none; contain: strict;
  scrollbar-color: var(--edge) transparent; }
#heads, .row { display: grid; grid-template-columns: var(--gutter) var(--columns) 1fr;
  width: max(100%, var(--wide)); }
#heads { position: sticky; top: 0; z-index: 4; height: var(--head); background: var(--raised);
  border-bottom: 1px solid var(--edge); }
#heads > div { position: relative; display: flex; align-items: center; gap: 7px; padding: 0 10px;
  border-right: 1px solid var(--line); font-weight: 600; overflow: hidden; cursor: pointer; }
#heads > div:hover { background: var(--tint); }
#heads > .corner { position: sticky; left: 0; z-index: 1; background: var(--raised); cursor: auto; }
#heads span { overflow: hidden; text-overflow: ellipsis; white-space: nowrap; }
#heads small { color: var(--soft); font: 500 11px/1 ui-monospace, "DejaVu Sans Mono", monospace; }
#heads .made small { color: var(--accent); font-style: italic; }
#heads i { position: absolute; right: 0; top: 0; bottom: 0; width: 7px; cursor: col-resize; }
#heads .more { color: var(--accent); border: 0; justify-content: start; font-weight: 550; }
#body { position: relative; min-width: 100%; }
.row { position: absolute; left: 0; height: var(--row); contain: layout style; }
.row > div { position: relative; padding: 0 10px; line-height: calc(var(--row) - 1px); overflow: hidden;
  white-space: pre; text-overflow: ellipsis; border: solid var(--line); border-width: 0 1px 1px 0; }
.row > .number { position: sticky; left: 0; z-index: 2; background: var(--raised); color: var(--soft);
  text-align: right; font-size: 12px; font-variant-numeric: tabular-nums; cursor: default; }
.row:hover > .number { color: var(--ink); }
.row.last > .number { color: var(--accent); font-size: 16px; text-align: center; }
.row.last > div { border-right-color: transparent; color: var(--soft); } .row > .end { border-right: 0; }
.num { text-align: right; font-variant-numeric: tabular-nums; } .made { background: var(--formula); }
.yes, .no { text-align: center; }
.yes::before, .no::before { content: ""; display: inline-block; width: 16px; height: 16px; vertical-align: middle;
  overflow: hidden; border-radius: 5px; border: 1.5px solid var(--edge); }
.yes::before { background: var(--accent); border-color: var(--accent); content: "✓"; line-height: 14px;
  color: var(--on-accent); font-size: 12px; font-weight: 700; }
.sr { position: absolute; width: 1px; height: 1px; overflow: hidden; clip-path: inset(50%); }
.chip { display: inline-block; padding: 0 9px; margin-right: 4px; line-height: 21px; font-size: 13px;
  border-radius: 99px; background: var(--chip); color: var(--chip-ink); }
.chip.far { font-style: italic; opacity: .8; } .wrong { color: var(--bad); font-size: 13px; }
.odd { color: var(--bad); text-decoration: underline wavy 1px; text-underline-offset: 3px; }
.hatched { color: var(--soft); font-size: 12px; font-style: italic; cursor: not-allowed;
  background: repeating-linear-gradient(-45deg, transparent 0 5px, var(--line) 5px 9px); }
.row > .picked { background: var(--tint); }
.row > .at { box-shadow: inset 0 0 0 1px var(--accent); background: var(--tint); }
#sheet:focus-within .row > .at { box-shadow: inset 0 0 0 2px var(--accent); }
.waits { opacity: .55; font-style: italic; } .fresh-a { animation: fresh-a 1.6s ease-out; }
.fresh-b { animation: fresh-b 1.6s ease-out; } @keyframes fresh-a { from, 25% { background: var(--fresh); } }
@keyframes fresh-b { from, 25% { background: var(--fresh); } }
@media (prefers-reduced-motion: reduce) { .fresh-a, .fresh-b { animation-timing-function: steps(1); } }
#edit { position: absolute; z-index: 3; padding: 5px 9px; margin: 0; resize: none; overflow: hidden;
  min-height: var(--row); line-height: 20px; border: 2px solid var(--accent); border-radius: 3px;
  background: var(--paper); box-shadow: 0 6px 20px var(--shade); outline: none; }
#list { position: absolute; z-index: 5; min-width: 200px; max-height: 264px; overflow: auto;
  background: var(--paper); border: 1px solid var(--edge); border-radius: 9px; padding: 4px;
  box-shadow: 0 10px 32px var(--shade); }
#list div { padding: 5px 10px; border-radius: 6px; cursor: pointer; white-space: nowrap; }
#list div[aria-selected=true] { background: var(--tint); }
#list .taken::after { content: " ✓"; color: var(--accent); font-weight: 700; }
#list p { margin: 4px 10px; color: var(--soft); font-size: 12px; }
footer { display: flex; align-items: center; gap: 16px; padding: 5px 14px; flex: none; font-size: 12.5px;
  color: var(--soft); border-top: 1px solid var(--line); }
footer kbd { font: 11px ui-monospace, monospace; padding: 0 5px; border: 1px solid var(--edge); border-radius: 4px;
  background: var(--paper); }
#told { position: fixed; left: 50%; bottom: 44px; translate: -50% 0; z-index: 9; max-width: 88vw;
  padding: 10px 16px; border-radius: 10px; background: var(--paper); border: 1px solid var(--edge);
  border-left: 4px solid var(--accent); box-shadow: 0 10px 34px var(--shade); white-space: pre-line; }
#told.bad { border-left-color: var(--bad); background: var(--bad-tint); }
#lost { display: flex; gap: 12px; align-items: center; justify-content: center; padding: 6px 14px;
  background: var(--bad-tint); color: var(--bad); flex: none; }
.away #sheet { opacity: .6; }
#door { margin: auto; width: min(400px, 92vw); padding: 30px; border-radius: 16px; display: grid; gap: 13px;
  background: var(--paper); border: 1px solid var(--line); box-shadow: 0 12px 50px var(--shade); }
#door p { margin: 0; color: var(--soft); }
input:not([type=checkbox]), select, dialog textarea { width: 100%; padding: 7px 10px; border-radius: 7px;
  border: 1px solid var(--edge); background: var(--raised); }
label { display: grid; gap: 4px; font-weight: 550; } label small { font-weight: 400; color: var(--soft); }
dialog { width: min(430px, 94vw); border: 1px solid var(--edge); border-radius: 14px; padding: 20px;
  background: var(--paper); color: var(--ink); box-shadow: 0 20px 60px var(--shade); }
dialog::backdrop { background: var(--shade); } dialog form { display: grid; gap: 13px; }
dialog h2 { margin: 0; font-size: 17px; }
dialog textarea { font: 13px/1.5 ui-monospace, "DejaVu Sans Mono", monospace; min-height: 72px; }
dialog .foot { display: flex; gap: 8px; flex-wrap: wrap; }
#pair { flex: 1; display: grid; grid-template-columns: 1fr 1fr; gap: 12px; padding: 0 14px 14px; min-height: 0; }
#pair section { display: flex; flex-direction: column; min-height: 0; border-radius: 14px; overflow: hidden;
  border: 1px solid var(--edge); background: var(--paper); }
#pair h2 { margin: 0; padding: 9px 16px; font-size: 14px; border-top: 4px solid var(--accent); }
#pair section + section h2 { border-top-color: light-dark(#7a4fc0, #b693f2); }
#pair h2 small { font-weight: 400; color: var(--soft); margin-left: 8px; }
#pair iframe { flex: 1; border: 0; width: 100%; }
@media (max-width: 800px) { #pair { grid-template-columns: 1fr; grid-auto-rows: 80vh; } .word { display: none; } }
.framed .brand, .framed #who, .framed .theme, .framed footer .keys { display: none; }
.framed header { padding: 7px 10px; gap: 5px; } .framed .word { display: none; }
</style>
</head>
<body>
<svg hidden><symbol id="clover" viewBox="0 0 24 24"><circle cx="8" cy="7.6" r="4.9"/>
<circle cx="16" cy="7.6" r="4.9"/><circle cx="8" cy="15.4" r="4.9"/><circle cx="16" cy="15.4" r="4.9"/>
<path d="M12 12c.6 4 1.8 7 4.6 10.4l-1.7 1C12.200 20 11.400 16 11.200 12z"/></symbol></svg>

<form id="door" hidden>
  <div class="brand"><svg><use href="#clover"/></svg>Jackclover</div>
  <p id="asked">Who are you? The token that you were given opens the document as you may see it.</p>
  <label id="first"><span>Token</span><input name="left" type="password" autocomplete="off" required></label>
  <label id="second"><span>Token on the right</span><input name="right" type="password" autocomplete="off"></label>
  <button class="main" style="justify-content:center">Open the document</button>
  <p><small>It stays behind the # of the address, which no browser sends to a server.</small></p>
</form>

<div id="room" style="display:contents" hidden>
  <header>
    <div class="brand"><svg><use href="#clover"/></svg>Jackclover</div>
    <div class="group">
      <button id="undo" disabled title="Undo (Ctrl+Z)">↶ <span class="word">Undo</span></button>
      <button id="redo" disabled title="Redo (Ctrl+Y)">↷ <span class="word">Redo</span></button>
    </div>
    <div class="group">
      <button id="add-row" title="Add a row (Ctrl+Enter)">+ Row</button>
      <button id="drop-row" title="Remove the row (Ctrl+-)">− Row</button>
      <button id="column" title="The column's name, type and formula (Alt+Enter)">Column…</button>
    </div>
    <div class="gap"></div>
    <span id="state" role="status">not connected</span>
    <button class="plain theme" id="theme" title="Light or dark" aria-label="Light or dark">◐</button>
    <button id="who" title="Open as somebody else"></button>
  </header>
  <div id="lost" role="alert" hidden><span></span><button id="again">Try now</button></div>
  <nav id="tabs" role="tablist" aria-label="Tables"></nav>
  <div id="bar"><b></b><span></span></div>
  <div id="sheet" role="grid" tabindex="0" aria-label="Table">
    <div id="heads" role="row" aria-rowindex="1"></div>
    <div id="body" role="rowgroup"></div>
  </div>
  <footer><span id="count"></span><span class="gap"></span><span class="keys"><kbd>Enter</kbd> edit
    &nbsp;<kbd>Esc</kbd> leave as it was &nbsp;<kbd>Ctrl Z</kbd> undo &nbsp;<kbd>Alt Enter</kbd>
    column</span></footer>
</div>
<div id="two" style="display:contents" hidden>
  <header><div class="brand"><svg><use href="#clover"/></svg>Jackclover</div>
    <span style="color:var(--soft)">One document, and what each of two people may see of it</span>
    <div class="gap"></div><button class="plain" id="theme-two" title="Light or dark">◐</button></header>
  <div id="pair"></div>
</div>
<div id="told" role="alert" hidden></div>
<dialog id="panel"><form method="dialog"></form></dialog>
<script>
"use strict";
const $ = id => document.getElementById(id), ROW = 32, HEAD = 36, GUTTER = 52, TALLEST = 16e6;
// What stands behind # goes to no server.
const asked = new URLSearchParams(location.hash.slice(1));
function make(kind, text, name, marks) {
  const it = document.createElement(kind);
  if (text !== undefined) it.textContent = text;
  if (name) it.className = name;
  for (const mark in marks) it.setAttribute(mark, marks[mark]);
  return it;
}
// What the page keeps for itself: widths and order of columns, light or dark. It does without.
const kept = {
  get(key) { try { return JSON.parse(localStorage.getItem(key)); } catch { return null; } },
  set(key, value) { try { localStorage.setItem(key, JSON.stringify(value)); } catch { /* none */ } },
};

// ---- The view: tables of rows, changed by nothing but the actions that the engine tells.
let view = new Map(), fresh = new Map(), stamps = 0;
class Table {
  constructor(columns) {
    this.columns = new Map(columns.map(c => [c.id, c])); this.cells = new Map(columns.map(c => [c.id, new Map()]));
    this.ids = []; this.has = new Set();
  }
  // Rows stand by id: new ones mostly go behind the last, those of an undo between others.
  add(ids, values) {
    let last = this.ids.at(-1) ?? 0, behind = true;
    for (const id of ids) { behind &&= id > last; last = id; this.ids.push(id); this.has.add(id); }
    if (!behind) this.ids.sort((a, b) => a - b);
    this.update(ids, values);
  }
  update(ids, values) {
    for (const col in values) ids.forEach((id, i) => this.cells.get(col).set(id, values[col][i]));
  }
  remove(ids) {
    for (const id of ids) for (const cells of [this.has, ...this.cells.values()]) cells.delete(id);
    this.ids = this.ids.filter(id => this.has.has(id));
  }
  // Where the row stands, or would.
  index(id) {
    let low = 0, high = this.ids.length;
    while (low < high) { const middle = (low + high) >> 1; this.ids[middle] < id ? low = middle + 1 : high = middle; }
    return low;
  }
}
const change = {
  AddTable: (t, columns) => view.set(t, new Table(columns)),
  RemoveTable: t => view.delete(t),
  AddColumn(t, id, column) { view.get(t).columns.set(id, { id, ...column }); view.get(t).cells.set(id, new Map()); },
  RemoveColumn(t, id) { view.get(t).columns.delete(id); view.get(t).cells.delete(id); },
  ModifyColumn: (t, id, column) => view.get(t).columns.set(id, { id, ...column }),
  BulkAddRecord: (t, ids, values) => view.get(t).add(ids, values),
  BulkUpdateRecord: (t, ids, values) => view.get(t).update(ids, values),
  BulkRemoveRecord: (t, ids) => view.get(t).remove(ids),
};
function take(actions, quiet) {
  for (const [kind, t, ...rest] of actions) {
    change[kind](t, ...rest);
    if (!quiet && /^Bulk(Add|Update)/.test(kind) && rest[0].length <= 200) mark(t, ...rest);
  }
  shapes.clear(); paint();
}
// Cells that just changed light up for a moment.
function mark(t, ids, values) {
  const now = performance.now();
  for (const id of ids) for (const col in values) fresh.set(key(t, id, col), [now, ++stamps]);
  setTimeout(() => {
    for (const [k, [at]] of fresh) if (performance.now() - at > 1600) fresh.delete(k);
  }, 1700);
}
const key = (t, id, col) => t + "\n" + id + "\n" + col;

// ---- The connection: one request at a time; lines with `seq` come before its reply.
let socket, open = false, busy = null, queue = [], seq = 0, tries = 0, silent = 0, timer = 0;
let done = [], undone = [], token = asked.get("token"), stats = { syncs: 0, lines: 0, slowest: 0 };
const waiting = new Set();
// Whole numbers have 64 bits: those that a number of the language does not hold are read by their
// digits. The slow way of reading is taken only where such a number may be there.
const wide = (k, v, c) => typeof v === "number" && !Number.isSafeInteger(v) && c ? { big: c.source } : v;
const read = text => (/\d{16}/.test(text) ? JSON.parse(text, wide) : JSON.parse(text));
function connect() {
  clearTimeout(timer);
  const here = socket = new WebSocket("ws://" + location.host + "/socket");
  let heard = false, opened = false; timer = setTimeout(() => state("waiting for a free lane", ""), 4000);
  state("connecting", "");
  here.onopen = () => { clearTimeout(timer); opened = true; queue = []; ask({ method: "openDoc", token }, start); };
  here.onmessage = e => { heard = true; silent = 0; if (here === socket) hear(read(e.data)); };
  here.onclose = () => {
    if (here !== socket) return;
    clearTimeout(timer);
    if (opened && !heard) silent++;
    lose();
  };
}
function start(told) {
  view = new Map(); seq = tries = 0; done = []; undone = []; waiting.clear(); open = true;
  document.body.classList.remove("away"); $("lost").hidden = true; state("live", "live"); take(told.actions, true);
  show(view.has(shown) ? shown : names()[0], true);
}
// Nothing is asked a second time by itself: the last request may have taken effect.
function lose() {
  const halfway = busy && /^(apply|undo)/.test(busy.request.method); open = false; busy = null; queue = [];
  waiting.clear(); document.body.classList.add("away");
  const ended = silent >= 5, wait = ended ? 30000 : Math.min(5000, 250 * 2 ** tries++); $("lost").hidden = false;
  $("lost").firstChild.textContent = ended
    ? "The server's history is full: it has to be started anew."
    : "The connection is lost. What you see is how it was; trying again…";
  state(ended ? "ended" : "not connected", "lost");
  if (halfway) tell("The connection was lost before the answer: look whether your change is there.", true);
  paint(); timer = setTimeout(connect, wait);
}
function ask(request, then, cells) {
  const text = JSON.stringify(request);
  if (new Blob([text]).size > 1048576) return tell("That is too much at once.", true);
  queue.push({ request, text, then, cells: cells || [] });
  for (const cell of cells || []) waiting.add(cell);
  next();
}
function next() {
  if (busy || !queue.length || socket.readyState !== 1) return;
  busy = queue.shift(); busy.at = performance.now(); socket.send(busy.text);
}
function hear(told) {
  stats.lines++;
  if ("seq" in told || busy && busy.request.method !== "sync") active = performance.now();
  if ("seq" in told) return told.seq === ++seq ? take(told.actions) : socket.close();
  const it = busy; busy = null;
  if (!it) return;
  for (const cell of it.cells) waiting.delete(cell);
  if (it.request.method === "sync") stats.syncs++;
  stats.slowest = Math.max(stats.slowest, performance.now() - it.at);
  if ("error" in told) refused(told.error);
  else if (it.then) it.then(told.ok);
  paint(); next();
}
function refused(error) {
  tell(words(error), true);
  if (error.code === 5) { socket.onclose = null; socket.close(); door("No user has that token."); }
}
// Each request is an entry of the run's history, which ends at 1,048,576: five in a second would use
// them up in 58 hours. So a page asks less often where nothing happens.
let active = 0, synced = 0;
function sync() {
  const now = performance.now(), idle = now - active;
  const every = document.hidden ? 30000 : idle < 10000 ? 200 : idle < 60000 ? 1000 : 5000;
  if (!open || busy || queue.length || now - synced < every - 20) return;
  synced = now; ask({ method: "sync" });
}
const wake = () => { active = performance.now(); sync(); };
setInterval(sync, 200); document.addEventListener("visibilitychange", wake);
for (const what of ["pointerdown", "keydown"]) addEventListener(what, wake, true);

// ---- What is told to a person.
const texts = {
  2: "That is too much at once.", 3: "The document is not open.", 4: "The document is open.",
  6: "There is no such table for you.", 7: "There is no such column for you.", 8: "There is no such row for you.",
  9: "A row stands there twice.", 10: "This table is changed by the document itself.",
  11: "A formula gives these cells.", 12: "This column cannot hold that.", 13: "That would be no good access rule.",
  14: "That is no name: begin with a letter, and go on with letters, digits or _.",
  16: "That is too long ago to be taken back.", 17: "That was taken back already.",
  18: "Somebody changed this since, so it cannot be taken back.",
  19: "It could not be kept, and nothing has changed. Try again later.",
  21: "Too much has changed meanwhile. The document is opened anew.",
};
const faults = {
  CircularRefError: "needs itself", ZeroDivisionError: "divided by 0", TypeError: "wrong type",
  AttributeError: "no such column", KeyError: "no such thing", NameError: "unknown name",
  OverflowError: "too large", SyntaxError: "no formula",
};
function words(e) {
  const rule = e.rule ? " (rule " + e.rule + ")" : "";
  if (e.code === 20) return (e.memo ? "Not allowed: " + e.memo : "You may not do this.") + rule;
  if (e.code === 15) return "Too many: at most " + e.bound.toLocaleString() + " " + e.what + ".";
  if (e.code === 22) return "Not renamed: of " + e.count + " places it cannot be told whether they mean it.";
  return texts[e.code] || "Refused: " + e.name + ".";
}
let silence = 0;
function tell(text, bad) {
  clearTimeout(silence); $("told").textContent = text; $("told").className = bad ? "bad" : "";
  $("told").hidden = !text; silence = setTimeout(() => { $("told").hidden = true; }, bad ? 9000 : 3000);
}
function state(text, kind) { $("state").textContent = text; $("state").className = kind; }

// ---- Tables and columns as they are shown. The engine tells both by their ids.
const shapes = new Map();
const isRule = name => name.startsWith("_");
const target = type => /^Ref(?:List)?:(.*)$/.exec(type)?.[1] ?? null;
const kindOf = type => type.split(":")[0];
function names() { return [...view.keys()].sort((a, b) => isRule(a) - isRule(b) || (a < b ? -1 : 1)); }
// By what a row is named: its first text.
function labels(t) {
  if (t.labels && t.columns.get(t.labels.id) === t.labels) return t.labels;
  const all = [...t.columns.values()].sort((a, b) => (a.id < b.id ? -1 : 1));
  const text = all.filter(c => c.type === "Text");
  t.labels = text.find(c => /^(name|title)$/i.test(c.id)) || text.find(c => !c.isFormula) || text[0]
    || all.find(c => c.type === "Any") || null;
  return t.labels;
}
// Columns in the order in which the person put them; else the one that names rows, and then by id.
function shape(name) {
  if (shapes.has(name)) return shapes.get(name);
  const t = view.get(name), order = kept.get("order/" + name) || [], first = labels(t)?.id;
  const place = c => {
    const i = order.indexOf(c.id); return i >= 0 ? i : c.id === first && !order.length ? -1 : 1e6;
  };
  const columns = [...t.columns.values()].sort((a, b) => place(a) - place(b) || (a.id < b.id ? -1 : 1));
  const widths = kept.get("widths/" + name) || {}, tight = asked.has("framed") ? .75 : 1;
  const usual = { Bool: 80, Int: 96, Date: 112, Text: 190 * tight, Ref: 160 * tight, RefList: 210 * tight, Any: 140 };
  const wide = c => widths[c.id] || Math.max(usual[kindOf(c.type)], 54 + c.id.length * 8.6)
    + (c.id === first ? 40 : 0);
  const made = { columns, widths: columns.map(wide), sign: "" }; made.sign = JSON.stringify([columns, made.widths]);
  shapes.set(name, made); return made;
}
function label(table, row) {
  const t = view.get(table), c = t && t.has.has(row) && labels(t); const v = c && t.cells.get(c.id).get(row);
  return typeof v === "string" && v ? v : null;
}
const date = s => new Date(s * 1000).toISOString().slice(0, s % 86400 ? 19 : 10).replace("T", " ");
const one = (table, row) => label(table, row) ?? table + " #" + row;
// A value as a person reads it: the class of its cell, its text, and rows that it refers to.
function looks(v, type) {
  const kind = kindOf(type);
  if (v === null || v === undefined) return ["", ""];
  if (typeof v === "boolean")
    return kind === "Bool" ? [v ? "yes" : "no", v ? "yes" : "no"] : ["", String(v)];
  if (typeof v === "object" && "big" in v) return ["num", v.big];
  if (typeof v === "number")
    return kind !== "Ref" ? ["num", String(v)] : v ? ["", "", target(type), [v]] : ["", ""];
  if (typeof v === "string") return [/^(Text|Any)$/.test(kind) ? "" : "odd", v];
  switch (v[0]) {
    case "C": return ["hatched", "hidden"];
    case "E": return ["wrong", "⚠ " + (faults[v[1]] || v[1])];
    case "d": return ["num", date(v[1])];
    case "R": return v[2] ? ["", "", v[1], [v[2]]] : ["", ""];
    case "r": return ["", "", v[1], v[2]];
  }
  const rows = target(type) && v.slice(1).every(i => typeof i === "number");
  return rows ? ["", "", target(type), v.slice(1)]
    : ["", v.slice(1).map(i => plain(i, "Any")).join(", ")];
}
function plain(v, type) {
  const [, text, table, rows] = looks(v, type); return rows ? rows.map(row => one(table, row)).join(", ") : text;
}
// What stands in the field in which a cell is edited.
function raw(v, type) {
  if (v === null || v === undefined) return "";
  return typeof v === "string" || typeof v === "number" ? String(v) : plain(v, type);
}
// The engine converts texts to the column's type, but for dates; Any keeps what it is given.
function typed(text, type) {
  const day = kindOf(type) === "Date" && /^(\d{4})-(\d\d?)-(\d\d?)$/.exec(text);
  if (text === "" || day) return day ? ["d", Date.UTC(day[1], day[2] - 1, day[3]) / 1000] : null;
  const whole = /^(0|-?[1-9]\d{0,15})$/.test(text) && Number.isSafeInteger(+text);
  return kindOf(type) === "Any" && whole ? +text : text;
}

// ---- The grid: rows in view are drawn alone. Row 0 is the empty one below the last.
let shown = null, at = { row: 0, col: null }, to = null, frame = 0, shift = 0, ratio = 1;
let pool = new Map(), spare = [], editing = null; const sheet = $("sheet"), body = $("body");
const place = (t, row) => (row ? t.index(row) : t.ids.length);
function show(name, keep) {
  if (editing) editing.end(false);
  if (!keep || name !== shown) { at = { row: 0, col: null }; to = null; sheet.scrollTop = 0; }
  shown = name; const t = view.get(name);
  if (t && !t.columns.has(at.col)) at = { row: t.ids[0] || 0, col: shape(name).columns[0]?.id ?? null };
  paint();
}
function paint() { frame ||= requestAnimationFrame(draw); }
function draw() {
  frame = 0;
  if (!view.has(shown)) shown = names()[0] ?? null;
  drawTabs(); const t = view.get(shown);
  if (!t) return body.replaceChildren();
  const { columns, widths, sign } = shape(shown);
  if (!t.columns.has(at.col)) at = { row: at.row, col: columns[0]?.id ?? null };
  if (at.row && !t.has.has(at.row)) at = { row: t.ids[t.index(at.row)] || 0, col: at.col };
  if (to && (!t.columns.has(to.col) || to.row && !t.has.has(to.row))) to = null;
  if (editing && !editing.fits(t)) { editing.end(false); tell("What you edited is gone.", true); }
  drawHeads(columns, widths, sign); drawRows(t, columns); drawBar(t); $("undo").disabled = !open || !done.length;
  $("redo").disabled = !open || !undone.length; $("drop-row").disabled = !open || !at.row;
  $("add-row").disabled = !open;
  $("count").textContent = t.ids.length.toLocaleString() + (t.ids.length === 1 ? " row" : " rows");
}
function drawTabs() {
  const all = names(), sign = JSON.stringify([all, shown]);
  if ($("tabs").sign === sign) return;
  $("tabs").sign = sign; document.title = (shown ? shown + " · " : "") + "Jackclover";
  const called = { _grist_ACLResources: "Resources", _grist_ACLRules: "Access rules" };
  const tabs = all.map(name => {
    const marks = { role: "tab", "aria-selected": name === shown, tabindex: name === shown ? 0 : -1 };
    const tab = make("button", called[name] || name, isRule(name) ? "rules" : "", marks);
    tab.onclick = () => { show(name); sheet.focus(); };
    if (!isRule(name)) tab.ondblclick = () => tablePanel(name);
    return tab;
  });
  const add = make("button", "+", "plain", { title: "Add a table", "aria-label": "Add a table" });
  const first = all.findIndex(isRule); add.onclick = () => tablePanel(null);
  tabs.splice(first < 0 ? tabs.length : first, 0, add);
  if (first >= 0) tabs.splice(first + 1, 0, make("hr"));
  $("tabs").replaceChildren(...tabs);
}
$("tabs").onkeydown = e => {
  const tabs = [...$("tabs").querySelectorAll("[role=tab]")], i = tabs.indexOf(e.target);
  const next = tabs[i + { ArrowRight: 1, ArrowLeft: -1 }[e.key]];
  if (!next) return e.key === "F2" && i >= 0 ? tablePanel(shown) : undefined;
  show(names()[tabs.indexOf(next)]);
  requestAnimationFrame(() => $("tabs").querySelector("[aria-selected=true]").focus());
};
const signs = { Text: "Aa", Int: "12", Bool: "✓", Date: "31", Ref: "→", RefList: "⇉", Any: "∗" };
function drawHeads(columns, widths, sign) {
  if ($("heads").sign === shown + sign) return;
  $("heads").sign = shown + sign;
  sheet.style.setProperty("--columns", widths.map(w => w + "px").join(" ") || "0px");
  sheet.style.setProperty("--wide", widths.reduce((a, b) => a + b, GUTTER + 110) + "px");
  sheet.setAttribute("aria-colcount", columns.length + 1); sheet.setAttribute("aria-label", shown);
  const heads = columns.map((c, k) => {
    const marks = { role: "columnheader", "aria-colindex": k + 2 };
    const head = make("div", undefined, c.isFormula ? "made" : "", marks), grip = make("i");
    head.append(make("small", c.isFormula ? "ƒ" : signs[kindOf(c.type)]), make("span", c.id));
    head.title = c.id + ": " + c.type + (!c.isFormula ? ""
      : c.formula === null ? "\nits formula is hidden from you" : "\n= " + c.formula);
    head.onclick = () => { at = { row: at.row, col: c.id }; to = null; columnPanel(c.id); };
    grip.onclick = e => e.stopPropagation(); grip.onpointerdown = e => resize(e, c.id, widths[k]);
    head.append(grip); return head;
  });
  const corner = make("div", "", "corner", { role: "columnheader", "aria-colindex": 1 });
  const more = make("div", "+ Column", "more", { role: "columnheader", tabindex: 0 });
  more.onclick = () => columnPanel(null); more.onkeydown = e => { if (e.key === "Enter") columnPanel(null); };
  corner.append(make("span", "row", "sr"));
  $("heads").replaceChildren(corner, ...heads, ...(isRule(shown) ? [] : [more]));
}
// A column's edge is drawn: the width is kept, and the heads are made anew at the end.
function resize(e, col, before) {
  const grip = e.target, name = "widths/" + shown, { columns, widths } = shape(shown), from = e.clientX;
  const k = columns.findIndex(c => c.id === col); e.preventDefault(); grip.setPointerCapture(e.pointerId);
  grip.onpointermove = m => {
    widths[k] = Math.max(48, before + m.clientX - from); kept.set(name, { ...kept.get(name), [col]: widths[k] });
    sheet.style.setProperty("--columns", widths.map(w => w + "px").join(" "));
  };
  grip.onpointerup = () => { grip.onpointermove = null; shapes.clear(); paint(); };
}
// The picked cells: rows from and to, columns from and to, by their places.
function picked(t, columns) {
  const k = col => columns.findIndex(c => c.id === col), end = to || at;
  const rows = [place(t, at.row), place(t, end.row)], cols = [k(at.col), k(end.col)];
  return [Math.min(...rows), Math.max(...rows), Math.min(...cols), Math.max(...cols)];
}
function drawRows(t, columns) {
  // An element has a greatest height in each browser: past it rows are drawn to scale.
  const rows = t.ids.length + (isRule(shown) && !t.columns.size ? 0 : 1), whole = rows * ROW;
  const high = Math.max(ROW, sheet.clientHeight - HEAD), tall = Math.min(whole, TALLEST);
  ratio = whole > tall ? (whole - high) / (tall - high) : 1; const over = sheet.scrollTop * ratio;
  shift = sheet.scrollTop - over; body.style.height = tall + "px"; sheet.setAttribute("aria-rowcount", rows + 1);
  const from = Math.max(0, Math.floor(over / ROW) - 4);
  const end = Math.min(rows, Math.ceil((over + high) / ROW) + 4), area = picked(t, columns);
  const wanted = new Set();
  for (let i = from; i < end; i++) wanted.add(t.ids[i] || 0);
  for (const [id, row] of pool) if (!wanted.has(id)) { pool.delete(id); spare.push(row); }
  for (let i = from; i < end; i++) {
    const id = t.ids[i] || 0; let row = pool.get(id);
    if (!row) { row = spare.pop() || body.appendChild(make("div")); row.row = id; pool.set(id, row); }
    drawRow(row, t, columns, i, area);
  }
  for (const row of spare.splice(0)) row.remove();
  const cell = pool.get(at.row)?.children[columns.findIndex(c => c.id === at.col) + 1];
  if (cell) { cell.id = "at"; sheet.setAttribute("aria-activedescendant", "at"); }
  else sheet.removeAttribute("aria-activedescendant");
  if (editing) editing.move();
}
function drawRow(row, t, columns, i, [i0, i1, k0, k1]) {
  const id = row.row; put(row, "className", id ? "row" : "row last"); put(row.style, "top", shift + i * ROW + "px");
  if (row.childElementCount !== columns.length + 2 || row.sign !== shown) {
    row.sign = shown; row.setAttribute("role", "row");
    row.replaceChildren(...[null, ...columns].map((c, k) => make("div", "", c ? "" : "number",
      { role: c ? "gridcell" : "rowheader", "aria-colindex": k + 1 })), make("div", "", "end"));
  }
  row.setAttribute("aria-rowindex", i + 2); put(row.firstChild, "textContent", id ? String(id) : "+");
  columns.forEach((c, k) => {
    const cell = row.children[k + 1], v = id ? t.cells.get(c.id).get(id) : null;
    const [kind, text, table, rows] = id ? looks(v, c.type) : ["", ""];
    const picks = i >= i0 && i <= i1 && k >= k0 && k <= k1, here = id === at.row && c.id === at.col;
    const name = key(shown, id, c.id), stamp = fresh.get(name);
    const all = (kind + (c.isFormula && id ? " made" : "") + (here ? " at" : picks ? " picked" : "")
      + (waiting.has(name) ? " waits" : "") + (stamp ? " fresh-" + "ab"[stamp[1] % 2] : "")).trim();
    if (cell.seen !== all + picks) {
      cell.seen = all + picks; cell.className = all; cell.setAttribute("aria-selected", picks);
      cell.setAttribute("aria-readonly", c.isFormula || kind === "hatched");
    }
    if (cell.id === "at" && !here) cell.removeAttribute("id");
    const sign = rows ? table + "\n" + rows.map(r => one(table, r)).join("\n") : kind + "\n" + text;
    if (cell.sign === sign) return; else cell.sign = sign;
    if (rows) cell.replaceChildren(...rows.map(r =>
      make("span", one(table, r), label(table, r) === null ? "chip far" : "chip")));
    else if (kind === "yes" || kind === "no") cell.replaceChildren(make("span", text, "sr"));
    else cell.textContent = text;
    cell.title = kind === "wrong" ? v[1] : kind === "odd" ? "This is no " + c.type + "." : "";
  });
}
function put(it, name, value) { if (it[name] !== value) it[name] = value; }
function drawBar(t) {
  const c = t.columns.get(at.col), v = c && at.row ? t.cells.get(c.id).get(at.row) : null;
  put($("bar").firstChild, "textContent", c ? c.id + (at.row ? " · " + at.row : "") : "");
  const told = $("bar").lastChild, formula = c?.isFormula && c.formula !== null;
  const text = !c ? "" : Array.isArray(v) && v[0] === "C" ? "hidden from you by an access rule"
    : formula ? "= " + c.formula : plain(v, c.type);
  if (told.sign !== text + formula)
    told.replaceChildren(formula ? make("code", text) : document.createTextNode(text));
  told.sign = text + formula;
}
// Brings a cell into view.
function reveal() {
  const t = view.get(shown), { columns, widths } = shape(shown), high = sheet.clientHeight - HEAD;
  const y = place(t, at.row) * ROW, over = sheet.scrollTop * ratio;
  if (y < over) sheet.scrollTop = y / ratio;
  else if (y + ROW > over + high) sheet.scrollTop = (y + ROW - high) / ratio;
  const k = columns.findIndex(c => c.id === at.col);
  const x = widths.slice(0, k).reduce((a, b) => a + b, 0), end = x + widths[k] + GUTTER;
  if (x < sheet.scrollLeft) sheet.scrollLeft = x;
  else if (end > sheet.scrollLeft + sheet.clientWidth) sheet.scrollLeft = end - sheet.clientWidth;
  paint();
}
// Moves the picked cell, or the far corner of what is picked.
function go(rows, cols, wider) {
  const t = view.get(shown), { columns } = shape(shown), from = wider && to || at;
  const i = Math.max(0, Math.min(t.ids.length, place(t, from.row) + rows));
  const k = Math.max(0, Math.min(columns.length - 1, columns.findIndex(c => c.id === from.col) + cols));
  const cell = { row: t.ids[i] || 0, col: columns[k].id };
  if (wider) to = cell; else { at = cell; to = null; }
  reveal();
}
sheet.addEventListener("scroll", paint, { passive: true }); addEventListener("resize", paint);
function cellUnder(e) {
  const cell = e.target.closest?.(".row > div"), k = cell ? [...cell.parentNode.children].indexOf(cell) : 0;
  const column = cell && shape(shown).columns[Math.max(0, k - 1)];
  return column ? { row: cell.parentNode.row, col: column.id, number: k === 0 } : null;
}
body.addEventListener("pointerdown", e => {
  const cell = cellUnder(e), { columns } = shape(shown);
  if (!cell || e.button) return;
  e.preventDefault();
  if (editing) editing.end(true);
  sheet.focus({ preventScroll: true }); const again = !to && cell.row === at.row && cell.col === at.col;
  if (e.shiftKey) to = cell; else { at = cell; to = null; }
  if (cell.number) to = { row: cell.row, col: columns.at(-1).id };
  else if (again && cell.row && view.get(shown).columns.get(cell.col).type === "Bool") edit();
  else if (cell.row === 0 && again) edit();
  paint();
  body.onpointermove = m => {
    const over = m.buttons & 1 ? cellUnder(m) : (body.onpointermove = null);
    if (over && (over.row !== at.row || over.col !== at.col)) { to = over; paint(); }
  };
});
body.addEventListener("dblclick", e => { if (cellUnder(e) && !editing) edit(); });
const keys = {
  ArrowDown: [1, 0], ArrowUp: [-1, 0], ArrowRight: [0, 1], ArrowLeft: [0, -1], Home: [0, -1e9], End: [0, 1e9],
  PageDown: [16, 0], PageUp: [-16, 0], F2: () => edit(), Delete: () => clear(), Backspace: () => clear(),
  Enter: e => (e.altKey ? columnPanel(at.col) : e.ctrlKey ? addRow() : edit()),
  Escape() { to = null; tell(""); paint(); },
};
const letters = { z: e => (e.shiftKey ? redo() : undo()), y: () => redo(), "-": () => dropRows(),
  a() { go(-1e9, -1e9); go(1e9, 1e9, true); go(-1, 0, true); }, home: () => go(-1e9, -1e9), end: () => go(1e9, 1e9) };
sheet.addEventListener("keydown", e => {
  if (e.target !== sheet || !view.has(shown) || at.col === null) return;
  const control = e.ctrlKey || e.metaKey, act = control && letters[e.key.toLowerCase()] || keys[e.key];
  if (typeof act === "function") act(e);
  else if (act) go(...act.map(by => (control ? by * 1e9 : by)), e.shiftKey);
  else if (e.key === "Tab" && !control) {
    const { columns } = shape(shown), last = columns[e.shiftKey ? 0 : columns.length - 1].id;
    if (at.col === last) return;
    go(0, e.shiftKey ? -1 : 1);
  } else if (e.key.length === 1 && !control && !e.altKey) edit(e.key);
  else return;
  e.preventDefault();
});

// ---- Changes. What is undone is a bundle too, so it is taken back in the same way.
function commit(request, then, cells) {
  if (!open) return tell("There is no connection just now.", true);
  ask(request, ok => {
    if (done.push(ok.bundle) > 100) done.shift();
    undone = []; then?.(ok.retValues);
  }, cells);
  paint();
}
function apply(actions, then, cells) { commit({ actions, method: "applyUserActions" }, then, cells); }
function back(from, onto, text) {
  const bundle = open ? from.pop() : undefined;
  if (bundle === undefined) return tell("There is nothing to " + text + ".");
  ask({ bundle, method: "undo" }, ok => { onto.push(ok.bundle); tell(text === "undo" ? "Undone." : "Redone."); });
}
const undo = () => back(done, undone, "undo"), redo = () => back(undone, done, "redo");
function set(row, c, value, follow) {
  const stay = ([made]) => { if (follow && at.row === 0 && made) { at.row = made; paint(); } };
  if (!row) return apply([["AddRecord", shown, null, { [c.id]: value }]], stay);
  apply([["UpdateRecord", shown, row, { [c.id]: value }]], null, [key(shown, row, c.id)]);
}
function addRow() {
  apply([["AddRecord", shown, null, {}]], ([row]) => {
    if (!row || !view.get(shown)?.has.has(row)) return;
    at = { row, col: shape(shown).columns[0].id }; to = null; reveal();
  });
}
function area() {
  const t = view.get(shown), { columns } = shape(shown), [i0, i1, k0, k1] = picked(t, columns);
  return { t, ids: t.ids.slice(i0, i1 + 1), cols: columns.slice(k0, k1 + 1), i0 };
}
const dropRows = () => area().ids.length && apply([["BulkRemoveRecord", shown, area().ids]]);
function clear() {
  const { ids, cols } = area(), data = cols.filter(c => !c.isFormula), values = {};
  for (const c of data) values[c.id] = ids.map(() => null);
  if (!data.length) return tell(texts[11], true);
  if (ids.length) apply([["BulkUpdateRecord", shown, ids, values]], null,
    ids.flatMap(id => data.map(c => key(shown, id, c.id))));
}
document.addEventListener("copy", e => {
  if (document.activeElement !== sheet || !view.has(shown)) return;
  const { t, ids, cols } = area();
  e.clipboardData.setData("text/plain", ids.map(id =>
    cols.map(c => plain(t.cells.get(c.id).get(id), c.type)).join("\t")).join("\n"));
  e.preventDefault();
});
document.addEventListener("paste", e => {
  if (document.activeElement !== sheet || !view.has(shown)) return;
  const lines = e.clipboardData.getData("text/plain").replace(/\r?\n$/, "").split(/\r?\n/);
  const { columns } = shape(shown), { t, i0, cols } = area();
  const from = columns.indexOf(cols[0]), over = t.ids.slice(i0, i0 + lines.length), actions = [];
  const values = (some, c, k) => some.map(line => typed(line.split("\t")[k] ?? "", c.type));
  for (const [kind, ids, some] of [["BulkUpdateRecord", over, lines.slice(0, over.length)],
    ["BulkAddRecord", lines.slice(over.length).map(() => null), lines.slice(over.length)]]) {
    const wide = columns.slice(from, from + lines[0].split("\t").length);
    if (ids.length) actions.push([kind, shown, ids,
      Object.fromEntries(wide.map((c, k) => [c.id, values(some, c, k)]))]);
  }
  apply(actions);
});

// ---- One cell is edited: the field over it, and for references a list to choose from.
function edit(first) {
  const t = view.get(shown), c = t.columns.get(at.col), where = at;
  const v = at.row ? t.cells.get(c.id).get(at.row) : null, list = target(c.type) !== null;
  if (!open) return tell("There is no connection just now.", true);
  if (c.isFormula) return tell("A formula gives these cells. Alt+Enter shows it.", true);
  if (Array.isArray(v) && v[0] === "C") return tell("This cell is hidden from you.", true);
  if (c.type === "Bool" && (first === undefined || first === " ")) return set(at.row, c, v !== true);
  to = null; reveal(); const field = make("textarea", undefined, "", { id: "edit", "aria-label": c.id });
  const menu = list && make("div", undefined, "", { id: "list", role: "listbox" }), before = list ? "" : raw(v, c.type);
  const many = kindOf(c.type) === "RefList";
  let chosen = Array.isArray(v) ? v.slice(1) : typeof v === "number" && v ? [v] : [], mark = 0, rows = [];
  const was = JSON.stringify(chosen); field.value = first ?? before;
  if (c.type === "Date") field.placeholder = "2026-12-31";
  function choose(row) {
    chosen = !row ? [] : !many ? [row] : chosen.includes(row) ? chosen.filter(r => r !== row) : [...chosen, row];
    field.value = ""; offer();
  }
  function offer() {
    const there = view.get(target(c.type)), sought = field.value.toLowerCase(), all = there?.ids ?? [];
    rows = all.filter(row => one(target(c.type), row).toLowerCase().includes(sought)).slice(0, 200);
    if (!sought && !many) rows.unshift(0);
    mark = Math.max(0, first || sought ? Math.min(mark, rows.length - 1) : rows.indexOf(chosen[0] ?? 0));
    menu.replaceChildren(...rows.map((row, i) => {
      const it = make("div", row ? one(target(c.type), row) : "— nothing —",
        many && chosen.includes(row) ? "taken" : "", { role: "option", "aria-selected": i === mark });
      it.onpointerdown = e => { e.preventDefault(); choose(row); if (!many) end(true); }; return it;
    }), make("p", there ? many ? "Enter takes one or lets it go · Tab keeps" : rows.length ? "" : "No such row"
      : "The rows of " + target(c.type) + " are hidden from you"));
    menu.children[mark]?.scrollIntoView?.({ block: "nearest" });
  }
  function end(keep, follow) {
    if (!editing) return;
    editing = null; field.remove(); menu && menu.remove();
    if (keep && list && JSON.stringify(chosen) !== was)
      set(where.row, c, many ? (chosen.length ? ["L", ...chosen] : null) : chosen[0] ?? 0, follow);
    else if (keep && !list && field.value !== before) set(where.row, c, typed(field.value, c.type), follow);
    paint();
  }
  function move() {
    const { columns, widths } = shape(shown), k = columns.findIndex(it => it.id === c.id);
    const x = GUTTER + widths.slice(0, k).reduce((a, b) => a + b, 0), y = shift + place(t, where.row) * ROW;
    Object.assign(field.style, { left: x + "px", top: y + "px", width: widths[k] + "px", height: ROW + "px" });
    field.style.height = Math.min(200, field.scrollHeight + 4) + "px";
    if (menu) Object.assign(menu.style, { left: x + "px", top: y + ROW + 3 + "px" });
  }
  const fits = t => t.columns.get(c.id)?.type === c.type && (!where.row || t.has.has(where.row));
  editing = { end, move, fits }; field.oninput = () => { if (menu) { mark = 0; offer(); } move(); };
  field.onblur = () => end(true);
  field.onkeydown = e => {
    e.stopPropagation(); const step = { ArrowDown: 1, ArrowUp: -1 }[e.key];
    if (menu && step) { mark = Math.max(0, Math.min(rows.length - 1, mark + step)); first = " "; offer(); }
    else if (e.key === "Enter" && many && rows.length) { first = " "; choose(rows[mark]); }
    else if (e.key === "Enter" && e.altKey) field.setRangeText("\n", field.selectionStart, field.selectionEnd, "end");
    else if (e.key === "Enter" || e.key === "Tab") {
      if (list && rows.length && (!many || field.value)) choose(rows[mark]);
      end(true, e.key === "Tab");
      if (e.key === "Tab") go(0, e.shiftKey ? -1 : 1); else if (where.row) go(e.shiftKey ? -1 : 1, 0);
      sheet.focus({ preventScroll: true });
    } else if (e.key === "Escape") { end(false); sheet.focus({ preventScroll: true }); }
    else return;
    e.preventDefault();
  };
  body.append(field);
  if (menu) { body.append(menu); offer(); }
  field.focus({ preventScroll: true }); field.setSelectionRange(field.value.length, field.value.length); move();
}

// ---- Panels: a column, and a table.
function panel(title, fields, buttons) {
  const form = $("panel").firstChild;
  form.replaceChildren(make("h2", title), ...fields, make("div", undefined, "foot"));
  for (const [text, kind, act] of buttons) {
    const it = make("button", text, kind); it.type = kind === "main" ? "submit" : "button";
    if (kind === "main") form.onsubmit = act; else it.onclick = () => { $("panel").close(); act(); };
    form.lastChild.append(it);
  }
  $("panel").showModal();
}
$("panel").onclose = () => sheet.focus({ preventScroll: true });
function field(text, it, more = "") {
  const made = make("label", text); made.append(it, make("small", more)); return made;
}
function columnPanel(id) {
  const t = view.get(shown), c = id && t.columns.get(id), { columns } = shape(shown), name = make("input");
  const type = make("select"), formula = make("textarea"), where = columns.indexOf(c);
  for (const kind of ["Any", "Text", "Int", "Bool", "Date"]) type.append(make("option", kind));
  for (const other of names().filter(n => !isRule(n)))
    type.append(make("option", "Ref:" + other), make("option", "RefList:" + other));
  if (c && ![...type.options].some(o => o.value === c.type)) type.append(make("option", c.type));
  name.value = c ? c.id : ""; name.required = true; type.value = c ? c.type : "Text";
  Object.assign(formula, { value: c?.formula ?? "", spellcheck: false, disabled: c?.formula === null });
  const ids = columns.map(it => it.id), order = ids => { kept.set("order/" + shown, ids); shapes.clear(); paint(); };
  const move = by => { ids.splice(Math.max(0, where + by), 0, ...ids.splice(where, 1)); order(ids); };
  function save() {
    const info = { type: type.value };
    if (formula.value !== (c?.formula ?? "") && !formula.disabled)
      Object.assign(info, { formula: formula.value, isFormula: formula.value !== "" });
    if (!c) return apply([["AddColumn", shown, name.value, info]], ([made]) => order([...ids, made]));
    if (info.type === c.type) delete info.type;
    const rename = name.value === id ? null : () => commit({ column: id, method: "renameColumn",
      new: name.value, table: shown }, ([made]) => order(ids.map(it => (it === id ? made ?? it : it))));
    Object.keys(info).length ? apply([["ModifyColumn", shown, id, info]], rename) : rename?.();
  }
  panel(c ? "Column " + id : "A new column of " + shown, [field("Name", name),
    field("Type", type), field("Formula", formula, formula.disabled ? "It is hidden from you."
      : "As $Price * 2 or $Project.Name. Empty: people write the cells.")],
  [[c ? "Save" : "Add", "main", save], ["Cancel", "", () => {}], ...(c ? [["◂", "", () => move(-1)],
    ["▸", "", () => move(1)], ["Remove column", "risky", () => apply([["RemoveColumn", shown, id]])]] : [])]);
}
function tablePanel(table) {
  const name = make("input"); name.value = table || ""; name.required = true;
  const save = () => table ? name.value !== table
    && apply([["RenameTable", table, name.value]], ([made]) => show(made || name.value))
    : apply([["AddTable", name.value, [{ id: "Name", type: "Text" }]]], ([made]) => show(made));
  panel(table ? "Table " + table : "A new table", [field("Name", name)], [[table ? "Save" : "Add", "main", save],
    ["Cancel", "", () => {}], ...(table ? [["Remove table", "risky", () => apply([["RemoveTable", table]])]] : [])]);
}

// ---- The door, one person's room, and two side by side.
const isTwo = location.pathname === "/two";
function theme() {
  const dark = kept.get("theme") ?? (matchMedia("(prefers-color-scheme: dark)").matches ? "dark" : "light");
  kept.set("theme", dark === "dark" ? "light" : "dark"); dress();
}
const dress = () => { document.documentElement.dataset.theme = kept.get("theme") || ""; };
addEventListener("storage", dress);
function door(why) {
  for (const id of ["room", "two"]) $(id).hidden = true;
  $("door").hidden = false; $("second").hidden = !isTwo;
  if (isTwo) $("first").firstChild.textContent = "Token on the left";
  if (why) $("asked").textContent = why + " Try another token.";
  $("door").elements.left.focus();
}
$("door").onsubmit = e => {
  const { left, right } = e.target.elements;
  location.hash = new URLSearchParams(isTwo ? { left: left.value, right: right.value } : { token: left.value });
  e.preventDefault(); location.reload();
};
function pair() {
  for (const side of ["left", "right"]) {
    const part = make("section"), frame = make("iframe"), name = asked.get(side + "-name") || side;
    const head = make("h2", name), told = asked.get(side + "-told");
    if (told) head.append(make("small", told));
    frame.title = name;
    frame.src = "/#" + new URLSearchParams({ token: asked.get(side), framed: 1, table: asked.get("table") || "" });
    part.append(head, frame); $("pair").append(part);
  }
  $("two").hidden = false;
}
function enter() {
  const name = asked.get("name") || "Signed in", clicks = { undo, redo, "add-row": addRow,
    "drop-row": dropRows, column: () => columnPanel(at.col), again: connect };
  for (const [id, act] of Object.entries(clicks)) $(id).onclick = () => { act(); if (id !== "column") sheet.focus(); };
  $("who").append(make("i", name[0].toUpperCase()), name);
  $("who").onclick = () => { location.hash = ""; location.reload(); };
  document.body.classList.toggle("framed", asked.has("framed")); $("room").hidden = false;
  shown = asked.get("table") || null; connect(); sheet.focus();
}
dress(); $("theme").onclick = $("theme-two").onclick = theme;
addEventListener("hashchange", () => location.reload());
if (isTwo && asked.get("left") && asked.get("right")) pair();
else if (!isTwo && token) enter();
else door();
</script>
</body>
</html>
"##;

// What a page has beside its data: the elements, and the script that draws. The script is no part of what is proved.

/// The page up to its data.
pub(crate) const HEAD: &str = "\
<!doctype html>
<html lang='en'>
<head>
<meta charset='utf-8'>
<title>Seamless</title>
<style>
body { margin: 12px; font: 14px Helvetica, Arial, sans-serif; color: #222222; background: #ffffff; }
header { display: flex; gap: 8px; align-items: center; margin-bottom: 8px; }
#round { flex: 1; max-width: 560px; }
#all { display: flex; gap: 16px; align-items: flex-start; }
canvas { border: 1px solid #7c828c; display: block; }
#space { width: 820px; height: 820px; cursor: crosshair; }
#chart { width: 440px; height: 110px; margin-top: 6px; cursor: pointer; }
aside { width: 460px; }
h2 { font-size: 15px; margin: 10px 0 4px; }
input[type=number] { width: 90px; }
table { border-collapse: collapse; font-size: 12px; }
td, th { padding: 0 6px; text-align: right; }
#cells { display: flex; gap: 24px; }
.swatch { display: inline-block; width: 10px; height: 10px; margin-right: 4px; }
p { margin: 2px 0; }
pre { font: 12px monospace; max-height: 150px; overflow: auto; margin: 2px 0; padding: 4px; background: #f4f4f4; white-space: pre-wrap; }
#calls { max-height: 170px; }
</style>
</head>
<body>
<header>
<button id='back' title='the round before'>&#9664;</button>
<button id='play'>play</button>
<button id='next' title='the next round'>&#9654;</button>
<input id='round' type='range' min='1' step='1'>
<b id='title'></b>
<label><input id='ghosts' type='checkbox' checked> ghosts</label>
</header>
<div id='all'>
<canvas id='space'></canvas>
<aside>
<h2>Cells</h2>
<div id='cells'></div>
<canvas id='chart' title='homes by cell and round'></canvas>
<h2>Entity <input id='entity' type='number' min='1' placeholder='or click'></h2>
<div id='state'></div>
<h2>Client <select id='client'></select></h2>
<p id='view'></p>
<pre id='lines'></pre>
<h2>Calls <label><input id='own' type='checkbox'> of the entity alone</label></h2>
<pre id='calls'></pre>
</aside>
</div>
<script type='text/plain' id='data'>
";

/// What comes after its data: the script, in JavaScript. It has no double quotes and no backslashes, so that it stands here as a browser
/// reads it.
pub(crate) const SCRIPT: &str = "\
</script>
<script>
'use strict';
// Draws the rounds whose data the page has. What each line of the data means is told in the crate seam_page_html.
const COLORS = ['#689efa', '#c8621a', '#156861', '#b74dc0', '#fdad03', '#6204ef', '#96ce72', '#641800',
  '#0fd3e6', '#7e7d9c', '#957056', '#7b0287', '#7366fb', '#372a35', '#d5bbb0', '#760ab9'];
const LINE_FEED = String.fromCharCode(10);
const MOST_CALLS = 500;
const MOST_NUMBERED = 150;
const by = id => document.getElementById(id);

// ---- the data

const plain = text => text.replace(/&#13;/g, String.fromCharCode(13)).replace(/&#0;/g, String.fromCharCode(0))
  .replace(/&lt;/g, '<').replace(/&amp;/g, '&');

// The first words of a line, and the rest of it.
function split(line, count) {
  const words = line.split(' ');
  return words.slice(0, count).concat(words.slice(count).join(' '));
}

function newRound(number, last) {
  return {
    number, areas: last.areas, homes: new Map(last.homes), bases: new Map(last.bases), ghosts: new Map(last.ghosts),
    views: new Map(last.views), calls: [], shown: new Map(), moved: 0,
  };
}

function execute(round, entity, place) {
  const home = round.homes.get(entity);
  if (home) round.homes.set(entity, { ...home, ...place, version: home.version + 1 });
}

// A line that the client of an entity was shown, which may change what it has in view.
function show(round, line) {
  const [, entity, , kind, other] = split(line, 5);
  const client = Number(entity);
  if (!round.shown.has(client)) round.shown.set(client, []);
  round.shown.get(client).push(line);
  const view = new Set(round.views.get(client) || []);
  if (kind === 'enter') view.add(Number(split(other, 1)[0]));
  if (kind === 'leave') view.delete(Number(other));
  round.views.set(client, view);
}

const READERS = {
  area(round, line) {
    const numbers = line.trim().split(/ +/).slice(1).map(Number);
    round.areas = [];
    for (let i = 0; i < numbers.length; i += 4) round.areas.push(numbers.slice(i, i + 4));
  },
  move(round, line) {
    const words = line.split(' ');
    const more = words.length > 3 ? Number(words[0]) : 1;
    const [sender, x, z] = words.slice(-3);
    round.moved = (round.moved + more) % 4294967296;
    round.calls.push({ part: 'did', entity: round.moved, text: (sender[0] === 'c' ? '' : 'b') + sender + ' move ' + x + ' ' + z });
    execute(round, round.moved, { x: Number(x), z: Number(z) });
  },
  did(round, line) {
    const [part, entity, sender, , deed] = split(line, 4);
    round.calls.push({ part, entity: Number(entity), text: sender + ' ' + deed });
    if (part === 'did') execute(round, Number(entity), {});
  },
  new(round, line) {
    const [, entity, type] = line.split(' ');
    round.homes.set(Number(entity), { type });
  },
  home(round, line) {
    const [, entity, cell, version, x, z, state] = split(line, 6);
    const { type } = round.homes.get(Number(entity));
    round.homes.set(Number(entity), { type, cell: Number(cell), version: Number(version), x: Number(x), z: Number(z), state });
  },
  cell(round, line) {
    const [, entity, cell] = line.split(' ').map(Number);
    round.homes.set(entity, { ...round.homes.get(entity), cell });
  },
  gone(round, line) {
    const entity = Number(line.split(' ')[1]);
    for (const map of [round.homes, round.bases, round.views]) map.delete(entity);
  },
  base(round, line) {
    const [, entity, state] = split(line, 2);
    round.bases.set(Number(entity), state);
  },
  ghosts(round, line) {
    const [, entity, ...cells] = line.split(' ').map(Number);
    if (cells.length) round.ghosts.set(entity, cells); else round.ghosts.delete(entity);
  },
  to: show,
};
READERS.dob = READERS.did;

function readRounds(lines) {
  const rounds = [];
  let round = { areas: [], homes: new Map(), bases: new Map(), ghosts: new Map(), views: new Map() };
  for (const line of lines) {
    const word = /^c?[0-9]/.test(line) ? 'move' : line.split(' ', 1)[0];
    if (word === 'round') {
      round = newRound(Number(line.split(' ')[1]), round);
      rounds.push(round);
    } else if (READERS[word]) {
      READERS[word](round, line);
    }
  }
  // Who was destroyed in a round was shown its last lines in it, and has no view after it.
  for (const it of rounds) for (const client of it.views.keys()) if (!it.homes.has(client)) it.views.delete(client);
  return rounds;
}

const lines = by('data').textContent.split(LINE_FEED).filter(line => line).map(plain);
const [, SIZE, RADIUS] = lines[0].split(' ').map(Number);
const rounds = readRounds(lines.slice(1));

// ---- the space

const chosen = { entity: 0, client: 0 };
const now = () => rounds[Number(by('round').value) - 1];
const SIDE = 820;

function context(canvas, width, height) {
  const scale = window.devicePixelRatio || 1;
  canvas.width = width * scale;
  canvas.height = height * scale;
  const pen = canvas.getContext('2d');
  pen.scale(scale, scale);
  return pen;
}

const place = (x, z) => [x * SIDE / SIZE, SIDE - z * SIDE / SIZE];

function dotRadius(count) {
  if (count <= MOST_NUMBERED) return 11;
  if (count <= 600) return 6;
  if (count <= 2500) return 4;
  return count <= 12000 ? 2 : 1;
}

function circle(pen, [x, y], radius) {
  pen.beginPath();
  pen.arc(x, y, radius, 0, 7);
}

function haloed(pen, text, x, y) {
  const dash = pen.getLineDash();
  pen.setLineDash([]);
  pen.lineJoin = 'round';
  pen.lineWidth = 3;
  pen.strokeStyle = '#ffffff';
  pen.strokeText(text, x, y);
  pen.fillStyle = '#222222';
  pen.fillText(text, x, y);
  pen.setLineDash(dash);
}

function drawAreas(pen, round) {
  round.areas.forEach(([west, south, east, north], cell) => {
    const [left, top] = place(west, north);
    const [right, bottom] = place(east, south);
    pen.globalAlpha = 0.13;
    pen.fillStyle = COLORS[cell];
    pen.fillRect(left, top, right - left, bottom - top);
    pen.globalAlpha = 1;
    pen.strokeStyle = '#7c828c';
    pen.lineWidth = 1.5;
    pen.strokeRect(left, top, right - left, bottom - top);
  });
}

function drawNames(pen, round) {
  pen.textAlign = 'left';
  pen.font = 'bold 15px Helvetica, Arial, sans-serif';
  round.areas.forEach(([west, , , north], cell) => {
    const [left, top] = place(west, north);
    haloed(pen, 'cell ' + cell, left + 7, top + 19);
  });
}

// Where the ghost of an entity is drawn: in the cell that has it, as near to the entity as there is room.
function ghostPlace(round, home, cell, margin) {
  const [west, south, east, north] = round.areas[cell];
  const [left, top] = place(west, north);
  const [right, bottom] = place(east, south);
  const [x, y] = place(home.x, home.z);
  const nearest = (at, low, high) => Math.max(low + margin, Math.min(at, high - margin));
  return [nearest(x, left, right), nearest(y, top, bottom)];
}

// The ghosts, and of those that are no rings the numbers, which are written when all dots are there.
function drawGhosts(pen, round, radius) {
  const labels = [];
  pen.setLineDash(radius > 4 ? [3, 2] : []);
  for (const [entity, cells] of round.ghosts) {
    const home = round.homes.get(entity);
    const isChosen = entity === chosen.entity;
    if (!home || !(by('ghosts').checked || isChosen)) continue;
    cells.filter(cell => round.areas[cell]).forEach((cell, before) => {
      const at = ghostPlace(round, home, cell, radius + 3);
      const own = place(home.x, home.z);
      const meets = Math.max(Math.abs(at[0] - own[0]), Math.abs(at[1] - own[1])) < 2 * radius;
      circle(pen, meets ? own : at, meets ? radius + 3 * (before + 1) : isChosen ? Math.max(radius, 6) : radius);
      pen.strokeStyle = COLORS[meets ? cell : home.cell];
      pen.lineWidth = isChosen ? 2.5 : radius > 4 ? 1.6 : 0.7;
      pen.stroke();
      if (!meets) labels.push([entity, at]);
    });
  }
  pen.setLineDash([]);
  return labels;
}

function writeGhosts(pen, labels) {
  pen.textAlign = 'center';
  pen.font = '11px Helvetica, Arial, sans-serif';
  for (const [entity, at] of labels) haloed(pen, entity, at[0], at[1] + 4);
}

function drawView(pen, round) {
  const own = round.homes.get(chosen.client);
  const view = round.views.get(chosen.client);
  if (!own || !view) return;
  const [left, top] = place(own.x - RADIUS, own.z + RADIUS);
  const side = 2 * RADIUS * SIDE / SIZE;
  pen.strokeStyle = '#333333';
  pen.lineWidth = 1.3;
  pen.setLineDash([7, 5]);
  pen.strokeRect(left, top, side, side);
  pen.setLineDash([]);
  for (const other of view) {
    const home = round.homes.get(other);
    if (!home) continue;
    pen.beginPath();
    pen.moveTo(...place(own.x, own.z));
    pen.lineTo(...place(home.x, home.z));
    pen.stroke();
  }
}

function drawWay(pen, round) {
  const ways = rounds.filter(it => it.number <= round.number).map(it => it.homes.get(chosen.entity)).filter(it => it);
  if (!ways.length) return;
  pen.strokeStyle = '#222222';
  pen.lineWidth = 1.5;
  pen.beginPath();
  ways.forEach(home => pen.lineTo(...place(home.x, home.z)));
  pen.stroke();
  for (const home of ways) {
    circle(pen, place(home.x, home.z), 2.5);
    pen.fillStyle = COLORS[home.cell];
    pen.fill();
  }
}

// The first of those at one point comes last, over the others.
const backward = round => [...round.homes].reverse();

function drawHomes(pen, round, radius) {
  for (const [entity, home] of backward(round)) {
    const hasClient = round.views.has(entity);
    circle(pen, place(home.x, home.z), radius);
    pen.fillStyle = COLORS[home.cell];
    pen.fill();
    pen.strokeStyle = hasClient ? '#222222' : '#ffffff';
    pen.lineWidth = hasClient ? Math.max(1.2, radius / 5) : radius / 9;
    if (hasClient || radius > 2) pen.stroke();
  }
  const own = round.homes.get(chosen.entity);
  if (!own) return;
  circle(pen, place(own.x, own.z), radius + 4);
  pen.strokeStyle = '#000000';
  pen.lineWidth = 2.5;
  pen.stroke();
}

// The numbers of the homes, of those at one point the first, and how many are there.
function writeHomes(pen, round, radius) {
  const points = new Map();
  for (const [entity, home] of backward(round)) {
    const point = home.x + ' ' + home.z;
    points.set(point, { entity, home, count: points.has(point) ? points.get(point).count + 1 : 1 });
  }
  const isNumbered = radius > 10;
  pen.font = 'bold 11px Helvetica, Arial, sans-serif';
  for (const { entity, home, count } of points.values()) {
    const [x, y] = place(home.x, home.z);
    pen.textAlign = 'left';
    if (count >= (isNumbered ? 2 : 5)) haloed(pen, String.fromCharCode(215) + count, x + radius + 2, y - radius / 2);
    if (!isNumbered) continue;
    pen.textAlign = 'center';
    pen.lineWidth = 2;
    pen.strokeStyle = '#222222';
    pen.strokeText(entity, x, y + 4);
    pen.fillStyle = '#ffffff';
    pen.fillText(entity, x, y + 4);
  }
}

function drawSpace(round) {
  const pen = context(by('space'), SIDE, SIDE);
  const radius = dotRadius(round.homes.size);
  drawAreas(pen, round);
  drawView(pen, round);
  const labels = drawGhosts(pen, round, radius);
  drawWay(pen, round);
  drawHomes(pen, round, radius);
  if (radius > 10) writeGhosts(pen, labels);
  writeHomes(pen, round, radius);
  drawNames(pen, round);
}

// ---- counts

function homesByCell(round) {
  const counts = new Array(16).fill(0);
  for (const home of round.homes.values()) counts[home.cell] += 1;
  return counts;
}

const charts = rounds.map(homesByCell);

function drawChart(round) {
  const [width, height] = [440, 110];
  const pen = context(by('chart'), width, height);
  const most = Math.max(1, ...charts.map(counts => counts.reduce((a, b) => a + b, 0)));
  const across = width / rounds.length;
  charts.forEach((counts, i) => {
    let top = height;
    counts.forEach((count, cell) => {
      const tall = count * height / most;
      top -= tall;
      pen.fillStyle = COLORS[cell];
      pen.fillRect(i * across, top, across + 0.5, tall);
    });
  });
  const at = rounds.indexOf(round);
  pen.strokeStyle = '#000000';
  pen.lineWidth = 2;
  pen.strokeRect(at * across, 1, across, height - 2);
}

function tableOfCells(round) {
  const homes = homesByCell(round);
  const ghosts = new Array(16).fill(0);
  for (const cells of round.ghosts.values()) for (const cell of cells) ghosts[cell] += 1;
  const rows = round.areas.map((area, cell) =>
    '<tr><td><span class=swatch style=background:' + COLORS[cell] + '></span>' + cell + '<td>' + homes[cell] + '<td>' + ghosts[cell]);
  const half = Math.ceil(rows.length / 2);
  const table = some => '<table><tr><th>cell<th>homes<th>ghosts' + some.join('') + '</table>';
  by('cells').innerHTML = rows.length > 4 ? table(rows.slice(0, half)) + table(rows.slice(half)) : table(rows);
}

// ---- the texts

function texts(element, some) {
  element.replaceChildren(...some.map(text => {
    const it = document.createElement('p');
    it.textContent = text;
    return it;
  }));
}

function tellEntity(round) {
  const home = round.homes.get(chosen.entity);
  if (!home) return texts(by('state'), chosen.entity ? ['is not there in this round'] : []);
  const [calls, held] = split(round.bases.get(chosen.entity) || '0', 1);
  const seers = [...round.views].filter(([, view]) => view.has(chosen.entity)).map(([client]) => client);
  texts(by('state'), [
    home.type + ' in cell ' + home.cell + ' at x = ' + home.x + ', z = ' + home.z + ', after ' + home.version + ' calls',
    'cell part: ' + (home.state || 'no properties'),
    'base part after ' + calls + ' calls: ' + (held || 'no properties'),
    'ghosts in cells: ' + ((round.ghosts.get(chosen.entity) || []).join(', ') || 'none'),
    'seen by the clients of: ' + (seers.join(', ') || 'nobody'),
  ]);
}

function tellClient(round) {
  const view = [...(round.views.get(chosen.client) || [])];
  by('view').textContent = chosen.client ? 'in view: ' + (view.sort((a, b) => a - b).join(', ') || 'nobody') : '';
  by('lines').textContent = (round.shown.get(chosen.client) || []).join(LINE_FEED);
}

function tellCalls(round) {
  const calls = by('own').checked ? round.calls.filter(call => call.entity === chosen.entity) : round.calls;
  const told = calls.slice(0, MOST_CALLS).map(call => call.part + ' ' + call.entity + ' ' + call.text);
  if (calls.length > MOST_CALLS) told.push('and ' + (calls.length - MOST_CALLS) + ' more');
  by('calls').textContent = told.join(LINE_FEED) || 'none';
}

function draw() {
  const round = now();
  by('title').textContent = 'Round ' + round.number + ' of ' + rounds[rounds.length - 1].number + ', ' + round.homes.size + ' entities';
  drawSpace(round);
  drawChart(round);
  tableOfCells(round);
  tellEntity(round);
  tellClient(round);
  tellCalls(round);
}

// ---- what a reader does

function choose(entity) {
  chosen.entity = entity;
  by('entity').value = entity || '';
  if (now().views.has(entity)) {
    chosen.client = entity;
    by('client').value = entity;
  }
  draw();
}

function go(number) {
  by('round').value = Math.max(1, Math.min(rounds.length, number));
  draw();
}

let timer = 0;
function play() {
  by('play').textContent = timer ? 'play' : 'stop';
  if (timer) {
    clearInterval(timer);
    timer = 0;
    return;
  }
  if (Number(by('round').value) === rounds.length) go(1);
  timer = setInterval(() => Number(by('round').value) < rounds.length ? go(Number(by('round').value) + 1) : play(), 600);
}

// The entity that is nearest to the pointer, or 0.
function nearest(event) {
  let [found, least] = [0, 14];
  for (const [entity, home] of now().homes) {
    const [x, y] = place(home.x, home.z);
    const far = Math.hypot(x - event.offsetX, y - event.offsetY);
    if (far < least) [found, least] = [entity, far];
  }
  return found;
}

// All that was read, as text: for checks of this page.
function told() {
  const all = [];
  for (const round of rounds) {
    all.push('round ' + round.number, 'area ' + round.areas.flat().join(' '));
    for (const call of round.calls) all.push(call.part + ' ' + call.entity + ' ' + call.text);
    const sorted = map => [...map].sort((a, b) => a[0] - b[0]);
    for (const [entity, it] of sorted(round.homes)) {
      all.push(['home', entity, it.cell, it.version, it.x, it.z].join(' ') + (it.state ? ' ' + it.state : ''));
    }
    for (const [entity, state] of sorted(round.bases)) all.push('base ' + entity + ' ' + state);
    for (const [entity, cells] of sorted(round.ghosts)) cells.forEach(cell => all.push('ghost ' + entity + ' ' + cell));
    for (const shown of sorted(round.shown)) all.push(...shown[1]);
    for (const [client, view] of sorted(round.views)) all.push(['view', client, ...[...view].sort((a, b) => a - b)].join(' '));
  }
  const text = document.createElement('pre');
  text.id = 'told';
  text.textContent = all.join(LINE_FEED);
  document.body.replaceChildren(text);
}

// A link may name a round, an entity and a client: page.html#3,6,1
function begin() {
  if (location.hash === '#told') return told();
  const [number, entity, client] = location.hash.slice(1).split(',').map(Number);
  const clients = new Set(rounds.flatMap(round => [...round.views.keys()]));
  by('client').replaceChildren(new Option('none', 0), ...[...clients].sort((a, b) => a - b).map(it => new Option(it, it)));
  chosen.entity = entity || 0;
  chosen.client = client || 0;
  by('entity').value = entity || '';
  by('client').value = client || 0;
  by('round').max = rounds.length;
  by('round').oninput = draw;
  by('back').onclick = () => go(Number(by('round').value) - 1);
  by('next').onclick = () => go(Number(by('round').value) + 1);
  by('play').onclick = play;
  by('space').onclick = event => choose(nearest(event));
  by('space').onmousemove = event => { by('space').title = nearest(event) || ''; };
  by('chart').onclick = event => go(1 + Math.floor(event.offsetX * rounds.length / 440));
  by('entity').oninput = () => choose(Number(by('entity').value));
  by('client').onchange = () => { chosen.client = Number(by('client').value); draw(); };
  by('own').onchange = by('ghosts').onchange = draw;
  go(number || rounds.length);
}

begin();
</script>
";

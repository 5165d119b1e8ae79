//! The script of a page of HTML, in JavaScript.

/// How the maps are read, and what an owner is called. A key may have more digits than a number of JavaScript, so it is a text.
pub const READING: &str = "</script>
<script>
'use strict';
const at = id => document.getElementById(id);
const lines = at('maps').textContent.trim().split('\\n');
const maps = lines.map(line => JSON.parse(line.replace(/\"key\":(\\d+)/g, '\"key\":\"$1\"')));
const last = maps[maps.length - 1], ledger = last.ledger;
const kind = owner => owner === null ? 'never granted' : owner === 0 ? 'in the pool'
  : Array.isArray(owner) ? 'on the move from class ' + owner[0] + ' to ' + goal(owner[1]) : 'class ' + owner;
const goal = owner => owner ? 'class ' + owner : 'the pool';
const shade = code => 96 + code % 4 * 50;
const colour = owner => {
  const code = (owner % 64 * 39 + 63) % 64;
  return 'rgb(' + [shade(code), shade(code >> 2), shade(code >> 4)] + ')';
};
const change = (owners, entry) => {
  const now = owners.slice();
  if ('granted' in entry) now[entry.granted] = entry.class;
  else if ('taken' in entry) now[entry.taken] = entry.class;
  else if ('began' in entry) now[entry.began] = [entry.src, entry.dst];
  else now[entry.ended] = entry.dst;
  return now;
};
const columns = [last.owners.map(() => null)];
for (const entry of ledger) columns.push(change(columns[columns.length - 1], entry));
";

/// How the pages over time are drawn, with a hint at each box.
pub const DRAWING: &str = "const WIDE = 20, HIGH = 18, LEFT = 64;
const shape = (parent, name, values, text) => {
  const it = document.createElementNS('http://www.w3.org/2000/svg', name);
  for (const key in values) it.setAttribute(key, values[key]);
  if (text !== undefined) it.textContent = text;
  return parent.appendChild(it);
};
const fill = owner => owner === null ? '#fff' : owner === 0 ? '#ddd' : colour(Array.isArray(owner) ? owner[0] : owner);
const box = (svg, page, from, to) => {
  const owner = columns[from][page], moves = Array.isArray(owner);
  const it = shape(svg, 'rect', { x: LEFT + from * WIDE, y: page * HIGH, width: (to - from) * WIDE - 1, height: HIGH - 2,
    fill: fill(owner), stroke: moves ? '#222' : '#ddd', 'stroke-dasharray': moves ? '3 2' : 'none' });
  const until = to > ledger.length ? 'to the end' : 'to entry ' + (to - 1);
  shape(it, 'title', {}, 'page ' + page + ': ' + kind(owner) + ', from entry ' + from + ' ' + until);
  if (owner === 0 || owner > 0) shape(svg, 'text', { x: LEFT + from * WIDE + 4, y: page * HIGH + 12 }, owner === 0 ? 'p' : owner);
};
const row = (svg, page) => {
  const beyond = page >= last.within ? ' +' : '';
  shape(svg, 'text', { x: LEFT - 6, y: page * HIGH + 12, 'text-anchor': 'end' }, 'page ' + page + beyond);
  for (let from = 0, to = 1; to <= columns.length; to++)
    if (to === columns.length || String(columns[to][page]) !== String(columns[from][page])) { box(svg, page, from, to); from = to; }
};
const draw = () => {
  const rows = last.owners.length, svg = shape(at('chart'), 'svg', { width: LEFT + columns.length * WIDE + 8, height: rows * HIGH + 4 });
  for (let page = 0; page < rows; page++) row(svg, page);
  return shape(svg, 'rect', { y: 0, width: WIDE, height: rows * HIGH, fill: 'none', stroke: '#c00', 'stroke-width': 2 });
};
";

/// How the classes of a moment are listed, and what holds up its move.
pub const TABLES: &str =
    "const HEADS = { class: 'the number of the class', size: 'bytes of a chunk', per_page: 'chunks a page', pages: 'pages of the class',
  chunks: 'linked + unlinked + dead + free + cleared', linked: 'chunks whose item its key leads to',
  unlinked: 'deleted or replaced items that somebody holds', dead: 'deleted or replaced items that nobody holds', free: 'chunks without an item',
  cleared: 'chunks that the mover emptied', held: 'items that somebody holds', asked: 'bytes of the linked items', bytes: 'bytes of their chunks',
  evictions: 'items that were evicted' };
const cell = (line, name, text, hint) => {
  const it = line.appendChild(document.createElement(name));
  it.textContent = text;
  it.title = hint;
};
const classes = map => {
  const table = document.createElement('table'), head = table.insertRow(), sum = {};
  for (const key in HEADS) cell(head, 'th', key.replace('_', ' '), HEADS[key]);
  for (const line of map.classes) {
    const it = table.insertRow();
    for (const key in HEADS) {
      cell(it, 'td', line[key], 'class ' + line.class + ': ' + HEADS[key]);
      sum[key] = (sum[key] || 0) + line[key];
    }
  }
  const it = table.insertRow();
  it.className = 'sum';
  for (const key in HEADS) cell(it, 'td', key === 'class' ? 'total' : key === 'size' || key === 'per_page' ? '' : sum[key] || 0, 'all classes: ' + HEADS[key]);
  return table;
};
const holders = map => {
  if (!map.moving) return ['no page moves'];
  const it = map.moving, head = 'page ' + it.page + ' moves from class ' + it.src + ' to ' + goal(it.dst) + ': the mover is at chunk ' + it.at + ' of ' + map.chunks;
  if (!map.blockers) return [head, 'what holds it up takes too many looks to find'];
  if (!map.blockers.length) return [head, 'nothing holds it up'];
  return [head].concat(map.blockers.map(b => 'chunk ' + b.chunk + ' hangs: key ' + b.key
    + (b.linked ? '' : ', which leads to it no more,') + ' is held by worker ' + b.workers.join(' ')));
};
";

/// What the slider does.
pub const ACTIONS: &str = "const marker = draw();
const show = () => {
  const place = Number(at('at').value), map = maps[place];
  at('when').textContent = (place + 1) + ' of ' + maps.length + ', after ' + map.done + ' commands' + (map.line ? ', line ' + map.line : '');
  at('count').textContent = 'after entry ' + map.ledger.length + ' of ' + ledger.length + '; ' + map.within + ' pages of ' + map.page
    + ' bytes are within the limit, and those marked + beyond it';
  marker.setAttribute('x', LEFT + map.ledger.length * WIDE);
  at('classes').replaceChildren(classes(map));
  at('move').replaceChildren(...holders(map).map(text => {
    const it = document.createElement('p');
    it.textContent = text;
    return it;
  }));
};
at('at').max = maps.length - 1;
at('at').value = maps.length - 1;
at('at').addEventListener('input', show);
show();
</script>
</body>
</html>
";

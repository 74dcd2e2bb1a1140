//! How the status page looks, and its script: files of their own, so that the page has nothing that a
//! Content-Security-Policy forbids.
//!
//! `server_pages.rt` shows them. The script asks for the page and the figures every five seconds; scripts/check-http
//! tests it. They name classes and ids of the page (`status.rt`, `tenant_rows.rt`, `limits.rt`, `recents.rt`) and
//! families of mw_metrics: change them together.

/// How the status page looks, in CSS.
pub const STYLE: &str = r#"body { font-family: sans-serif; margin: 1em; max-width: 75em }
h2 { font-size: 1.1em; margin: 1.2em 0 .3em }
table { border-collapse: collapse }
td, th { padding: .2em .8em .2em 0; text-align: left; vertical-align: top }
p.up, p.down, p.near, p.slow { padding: .5em }
p.up, p.down { font-weight: bold }
p.up { background: #cec }
.down, .replaced, .slow { background: #fcc }
.near { background: #fe9 }
meter { width: 8em }
svg { display: block; width: 180px; height: 30px }
path { fill: none; stroke: #bbb }
polyline { fill: none; stroke: #369 }
.recent td:nth-child(n+3)::after { content: "-15min now"; color: #666; font-size: .7em; display: block; width: 180px; text-align-last: justify }
@media (max-width: 46em) {
  table, tbody, tr, td { display: block }
  th { display: none }
  tr { margin: .5em 0 }
  td { padding: .1em 0 }
  td:first-child { font-weight: bold }
  .recent td:nth-child(3)::before { content: "Changes a second: " }
  .recent td:nth-child(4)::before { content: "A change, in \b5s: " }
  .recent td:nth-child(5)::before { content: "A sync, in \b5s: " }
  .limits td:nth-child(4)::before { content: "What raises it: " }
  .tenants td:nth-child(3)::before { content: "Words: " }
  .tenants td:nth-child(4)::before { content: "Changes under way: " }
  .tenants td:nth-child(5)::before { content: "Record places: " }
  .minute td:nth-child(n+2) { display: inline-block; width: 11em }
  .minute td:nth-child(2)::before { content: "Change p50: " }
  .minute td:nth-child(3)::before { content: "Change p99: " }
  .minute td:nth-child(4)::before { content: "Sync p99: " }
  .minute td:nth-child(5)::before { content: "Read p99: " }
  .minute td:nth-child(6)::before { content: "YES a second: " }
  .minute td:nth-child(7)::before { content: "NO: " }
  .minute td:nth-child(8)::before { content: "BUSY: " }
  .minute td:nth-child(9)::before { content: "FAULT: " }
  .minute td:nth-child(10)::before { content: "Reads: " }
}
"#;

/// The script of the status page, in JavaScript.
pub const SCRIPT: &str = r#""use strict";
// Of the status page: takes what the server shows anew, and shows who was slow in the last minute, by the figures for Prometheus.

const EVERY = 5; // seconds between two looks
const SPAN = 60; // seconds of the last minute
const SLOW = { change: 0.5, sync: 0.1, read: 0.1 }; // seconds: a p99 above is slow; that of a sync is the alert's
const COLUMNS = ["Tenant", "Change p50", "p99", "Sync p99", "Read p99", "YES a second", "NO", "BUSY", "FAULT", "Reads"];
const looks = []; // what the figures were, the oldest first

// What one look found: when, how long the server is up, and for each tenant counts by what they count.
function lookOf(text) {
  const look = { at: Date.now() / 1000, up: 0, tenants: new Map() };
  for (const line of text.split("\n")) {
    const parts = /^(\w+)(?:\{(.*)\})? (\S+)$/.exec(line);
    if (parts) count(look, parts[1], labelsOf(parts[2] || ""), Number(parts[3]));
  }
  return look;
}

function labelsOf(text) {
  return Object.fromEntries([...text.matchAll(/(\w+)="([^"]*)"/g)].map((label) => [label[1], label[2]]));
}

// Puts a figure into a look, by a name of what it counts: a reply, or a bucket of a time.
function count(look, metric, labels, value) {
  if (metric === "mondlexi_uptime_seconds") look.up = value;
  if (!labels.tenant) return;
  if (!look.tenants.has(labels.tenant)) look.tenants.set(labels.tenant, { replies: {}, times: {} });
  const tenant = look.tenants.get(labels.tenant);
  if (metric === "mondlexi_requests_total") tenant.replies[`${labels.kind} ${labels.reply}`] = value;
  if (metric.endsWith("_seconds_bucket")) {
    const name = labels.kind || labels.call;
    (tenant.times[name] = tenant.times[name] || []).push([labels.le === "+Inf" ? Infinity : Number(labels.le), value]);
  }
}

// The time below which this part of all lies, of the times between two looks; null if there were none. As histogram_quantile.
function quantile(now, before, name, part) {
  const old = (before && before.times[name]) || [];
  const buckets = (now.times[name] || []).map(([most, all], index) => [most, all - (old[index] ? old[index][1] : 0)]);
  const total = buckets.length ? buckets[buckets.length - 1][1] : 0;
  if (total <= 0) return null;
  let [below, counted] = [0, 0];
  for (const [most, all] of buckets) {
    if (all >= part * total) return most === Infinity ? below : below + (most - below) * (part * total - counted) / (all - counted);
    [below, counted] = [most, all];
  }
  return below;
}

// The row of a tenant: its name, its times, its rates, and whether one of its times is slow.
function rowOf(name, now, before, seconds) {
  const times = [["CAS", 0.5], ["CAS", 0.99], ["sync", 0.99], ["GET", 0.99]].map(([kind, part]) => quantile(now, before, kind, part));
  const rate = (reply) => ((now.replies[reply] || 0) - ((before && before.replies[reply]) || 0)) / seconds;
  const fault = rate("CAS FAULT") + rate("GET FAULT");
  const rates = [rate("CAS YES"), rate("CAS NO"), rate("CAS BUSY"), fault, rate("GET VAL")];
  const slow = times[1] > SLOW.change || times[2] > SLOW.sync || times[3] > SLOW.read;
  return { name, times, rates, slow };
}

function secondsText(seconds) {
  if (seconds === null) return "none";
  if (seconds < 0.001) return `${(seconds * 1e6).toFixed(0)} \u00b5s`;
  return seconds < 1 ? `${(seconds * 1e3).toFixed(1)} ms` : `${seconds.toFixed(1)} s`;
}

function rateText(rate) {
  return rate > 0 && rate < 10 ? rate.toFixed(1) : rate.toFixed(0);
}

function made(kind, text, look) {
  const element = document.createElement(kind);
  element.textContent = text;
  if (look) element.className = look;
  return element;
}

function tableOf(rows) {
  const table = made("table", "", "minute");
  const heads = table.insertRow();
  COLUMNS.forEach((column) => heads.append(made("th", column)));
  for (const row of rows) {
    const cells = table.insertRow();
    if (row.slow) cells.className = "slow";
    cells.append(made("td", row.slow ? `${row.name} (slow)` : row.name));
    row.times.forEach((time) => cells.append(made("td", secondsText(time))));
    row.rates.forEach((rate) => cells.append(made("td", rateText(rate))));
  }
  return table;
}

// Shows the time between the last look and that of a minute ago, or the oldest. The slowest tenant comes first.
function showMinute() {
  const now = looks[looks.length - 1];
  while (looks.length > 2 && now.at - looks[1].at >= SPAN) looks.shift();
  const before = looks[0];
  const seconds = now.at - before.at;
  const place = document.getElementById("minute");
  place.replaceChildren(made("h2", "Who is slow"));
  if (seconds <= 0) {
    place.append(made("p", `The first figures come after ${EVERY} seconds.`));
    return;
  }
  const rows = [...now.tenants].map(([name, tenant]) => rowOf(name, tenant, before.tenants.get(name), seconds));
  rows.sort((one, other) => other.times[1] - one.times[1] || other.times[3] - one.times[3]);
  const slow = rows.filter((row) => row.slow).map((row) => row.name);
  const word = slow.length ? `Slow: ${slow.join(" ")}.` : "No tenant is slow.";
  place.append(made("p", `${word} This is of the last ${Math.round(seconds)} seconds.`, slow.length ? "slow" : ""), tableOf(rows));
}

async function textAt(place) {
  const answer = await fetch(place, { cache: "no-store", signal: AbortSignal.timeout(15000) });
  if (!answer.ok) throw new Error(`${place}: ${answer.status}`);
  return answer.text();
}

// Takes what the server shows, in place of what it showed.
function showPage(text) {
  const page = new DOMParser().parseFromString(text, "text/html");
  for (const part of ["state", "rest"]) document.getElementById(part).replaceWith(page.getElementById(part));
}

function showFailure(error) {
  const since = looks.length ? ` since ${new Date(looks[looks.length - 1].at * 1000).toLocaleTimeString()}` : "";
  document.getElementById("state").replaceChildren(made("p", `No answer from the server${since}: ${error.message}`, "down"));
}

async function look() {
  try {
    const [page, figures] = [await textAt("./"), await textAt("metrics")];
    const found = lookOf(figures);
    if (looks.length && found.up < looks[looks.length - 1].up) looks.length = 0;
    looks.push(found);
    showPage(page);
    showMinute();
  } catch (error) {
    showFailure(error);
  }
  setTimeout(look, EVERY * 1000);
}

look();
"#;

//! What every page begins and ends with. Its policy lets a browser load and run nothing, and take
//! only this style, by its SHA-256.

/// The first bytes of a page, by which its file is known.
pub const PAGE_BEGINNING: &str = "<!DOCTYPE html>\n<!-- A page of rollout report -->\n";

/// A page before its content: the head with the style, and the start tag of the body. `bench/page`
/// compares the policy with the style.
pub const PAGE_HEAD: &str = r##"<!DOCTYPE html>
<!-- A page of rollout report -->
<html lang="en" xmlns="http://www.w3.org/1999/xhtml">
<head>
<meta charset="utf-8"/>
<meta http-equiv="Content-Security-Policy"
  content="default-src 'none'; style-src 'sha256-NllXiEeJTW/b2YfcVXFI1p676d1rduob5Ae6uTD+Mdw='"/>
<meta name="viewport" content="width=device-width, initial-scale=1"/>
<title>rollout report</title>
<style>
:root{color-scheme:light dark;--text:#1c2128;--muted:#57606a;--line:#d0d7de;--back:#fff;
  --soft:#f3f5f7;--act:#a3151a;--bad:#b3261e;--look:#8a5a00;--well:#1a7f37;--v0:#8c959f;
  --v1:#0b5cad;--v2:#d2770a;--v3:#0a9a86;--v4:#a3195b;--v5:#4d500d}
@media(prefers-color-scheme:dark){:root{--text:#e6edf3;--muted:#9da7b3;--line:#30363d;
  --back:#0d1117;--soft:#1a2029;--act:#8f1218;--bad:#ff8a80;--look:#e3b341;--well:#56d364;
  --v0:#7d8590;--v1:#4fa8e4;--v2:#e89b3c;--v3:#8fe6d8;--v4:#ff7fae;--v5:#e4dc9a}}
*{box-sizing:border-box}
body{margin:0;background:var(--back);color:var(--text);font:15px/1.5 system-ui,sans-serif;
  font-variant-numeric:tabular-nums;overflow-wrap:anywhere}
section,.band{max-width:1120px;margin:0 auto;padding:0 24px}
section{padding-top:28px}
section:last-of-type{padding-bottom:36px}
.act,.look,.well,div.facts{padding:20px 0;border-bottom:1px solid var(--line)}
.act{background:var(--act);color:#fff;border:0}
p.facts{max-width:1120px;margin:12px auto 0;padding:0 24px;color:var(--muted);font-size:13px}
p.facts::after{content:" It has been open for over a minute: reload it.";color:var(--look);
  visibility:hidden;animation:old 0s 60s forwards}
@keyframes old{to{visibility:visible}}
h1{font-size:22px;line-height:1.3;margin:0;font-weight:600}
.act h1::before{content:"\2716\00a0\00a0"}
.look h1::before{content:"\25B2\00a0\00a0";color:var(--look)}
.well h1::before{content:"\2714\00a0\00a0";color:var(--well)}
h2{font-size:22px;margin:0 0 8px;font-weight:600}
h3{font-size:15px;margin:20px 0 0;font-weight:600}
p{margin:4px 0}
code{font:13px/1.5 ui-monospace,monospace;background:var(--soft);color:var(--text);
  padding:2px 6px;border-radius:3px}
.act code{background:#7a0d12;color:#fff}
.findings .act code{background:var(--soft);color:var(--text)}
.name,code{display:inline-block;max-width:100%;max-height:6em;overflow-y:auto;
  vertical-align:top}
.muted{color:var(--muted);font-size:13px}
.bad{color:var(--bad)}
.findings{max-width:1120px;margin:0 auto;padding:12px 24px;list-style:none}
.findings li{padding:3px 0 3px 22px;position:relative;border:0}
.findings li::before{content:"\25B2";color:var(--look);position:absolute;left:0}
.findings li.act{background:none;color:var(--bad)}
.findings li.act::before{content:"\2716";color:var(--bad)}
.wide{overflow-x:auto}
.wide+.wide{margin-top:16px}
table{border-collapse:collapse;min-width:min(100%,600px)}
th,td{text-align:left;padding:5px 14px 5px 0;border-bottom:1px solid var(--line);font-weight:400;
  vertical-align:top}
td{overflow-wrap:break-word}
td .name{overflow-wrap:anywhere}
th{color:var(--muted);font-size:13px;white-space:nowrap}
th.number,td.number{text-align:right;padding-right:0;padding-left:14px;white-space:nowrap}
td.bad{text-align:right;font-weight:600;white-space:nowrap;padding-right:0;padding-left:14px}
span.v0,span.v1,span.v2,span.v3,span.v4,span.v5{display:inline-block;width:10px;height:10px;
  margin-right:7px;background:var(--c)}
.v0{--c:var(--v0)}
.v1{--c:var(--v1)}
.v2{--c:var(--v2)}
.v3{--c:var(--v3)}
.v4{--c:var(--v4)}
.v5{--c:var(--v5)}
path{fill:var(--c)}
path.bad{fill:var(--bad);fill-opacity:1}
.strip{display:block;width:100%;height:56px;border-bottom:1px solid var(--muted);
  shape-rendering:crispEdges}
.limit,.load,path.axis{fill:none;vector-effect:non-scaling-stroke}
.limit{stroke:var(--bad);stroke-dasharray:2 3}
.load,path.axis{stroke:var(--text)}
.load{stroke-dasharray:5 3}
.axis{display:block;width:100%;height:20px;overflow:visible}
td .axis{width:160px;height:10px;margin:6px 0 0 auto}
.axis text{font-size:12px;fill:var(--muted)}
.axis text:not([text-anchor]){text-anchor:middle}
.course{padding-right:20px}
summary{cursor:pointer;font-weight:600}
pre{font:13px/1.5 ui-monospace,monospace;white-space:pre-wrap}
@media(min-width:1040px){section>div:not([class]){display:grid;gap:0 40px;
  grid-template-columns:1fr 1fr}section>div>div{min-width:0}section>div>div>h3{margin-top:5px}}
@media(max-width:720px){body{font-size:14px}table,th{font-size:13px}section,.band,.findings,
  p.facts{padding-left:16px;padding-right:16px}th,td{padding-right:4px}th.number,td.number,td.bad{
  padding-left:4px}}
@media(max-width:480px){th:nth-child(2):nth-last-child(6),td:nth-child(2):nth-last-child(6){
  display:none}}
@media print{*{print-color-adjust:exact}.name,code{max-height:none}td{overflow-wrap:anywhere}
  .course,tr{break-inside:avoid}h2,h3{break-after:avoid}}
</style>
</head>
<body>
"##;

/// A page after its content.
pub const PAGE_END: &str = "</body>\n</html>\n";

//! How the page looks.

/// The front of the page, up to its title.
pub(crate) const FRONT: &str = "<!doctype html>\n<html lang=\"en\"><head><meta charset=\"utf-8\">\
<meta name=\"viewport\" content=\"width=device-width,initial-scale=1\">\
<meta name=\"color-scheme\" content=\"light dark\">\
<meta http-equiv=\"Content-Security-Policy\" content=\"default-src 'none'; style-src 'unsafe-inline'\">\n<title>";

/// The colors of series (`s0` to `s7`) and verdicts (`v0` to `v3`) differ also for those who see red and green alike.
pub(crate) const STYLE: &str = "<style>\
:root{color-scheme:light dark;--ink:#1b1f24;--dim:#57606a;--paper:#fff;--soft:#f4f6f8;--rule:#d5dae0}\
.s0{--c:#0072b2}.s1{--c:#d55e00}.s2{--c:#009e73}.s3{--c:#b4588f}.s4{--c:#2f9bd0}.s5{--c:#c98a00}.s6{--c:#333}\
.s7{--c:#888}.v0{--c:#009e73}.v1{--c:#e69f00}.v2{--c:#999}.v3{--c:#d55e00}\n\
@media(prefers-color-scheme:dark){:root{--ink:#e4e8ec;--dim:#9aa5b1;--paper:#14181d;--soft:#1e242b;--rule:#39424d}\
.s0{--c:#4fa8e0}.s1{--c:#ff8a3d}.s2{--c:#2fc79a}.s3{--c:#dd8dbd}.s4{--c:#8ccbf0}.s5{--c:#f0b429}.s6{--c:#e8e8e8}\
.s7{--c:#9a9a9a}.v0{--c:#22b586}.v1{--c:#f0b429}.v2{--c:#8a8a8a}.v3{--c:#ff8a3d}}\n\
body{font:16px/1.5 system-ui,sans-serif;max-width:60rem;margin:0 auto;padding:1rem;color:var(--ink);\
background:var(--paper)}h1{font-size:1.6rem;line-height:1.2;margin:.5rem 0}\
h2{font-size:1.15rem;margin:2.2rem 0 .4rem}h1,.from,td,summary{overflow-wrap:anywhere}\
.from,.note,figcaption{color:var(--dim);margin:.2rem 0}\
.facts{display:grid;grid-template-columns:repeat(auto-fill,minmax(8.5rem,1fr));gap:.5rem;margin:1rem 0}\
.facts div{background:var(--soft);border-radius:.4rem;padding:.4rem .7rem}\
.facts dt{color:var(--dim);font-size:.8rem}.facts dd{margin:0;font-size:1.15rem}figure{margin:.8rem 0}\
h3{font-size:1rem;margin:.6rem 0 0;overflow-wrap:anywhere}\
.charts{display:grid;grid-template-columns:repeat(auto-fit,minmax(min(100%,24rem),1fr));gap:0 1.5rem}\
.charts .plot{height:9rem}\
.plot{position:relative;height:12rem;margin:1.6rem .8rem 1.5rem 3.6rem;border:solid var(--dim);\
border-width:0 0 1px 1px}svg{display:block;width:100%;height:100%;overflow:visible}\
path{fill:none;stroke:var(--c);stroke-width:2;vector-effect:non-scaling-stroke;stroke-linejoin:round}\
.grid{stroke:var(--rule);stroke-width:1}.far{stroke-width:1.5;stroke-dasharray:5 4}rect{fill:var(--c)}\
.y,.x,.unit{position:absolute;font-size:.75rem;line-height:1;color:var(--dim);white-space:nowrap}\
.y{right:100%;margin-right:.4rem;transform:translateY(50%)}\
.x{top:100%;margin-top:.4rem;transform:translateX(-50%)}.unit{right:100%;bottom:100%;margin:0 -2rem .6rem 0}\
.along{text-align:right;margin:0 .8rem;font-size:.75rem;color:var(--dim)}\
.key{display:inline-block;margin-right:1rem}\
.key i,td i{display:inline-block;width:.75em;height:.75em;margin-right:.35em;background:var(--c)}\
.wide{overflow-x:auto}table{border-collapse:collapse;font-variant-numeric:tabular-nums;font-size:.9rem}\
td,th{padding:.25rem .7rem;border-bottom:1px solid var(--rule);text-align:right;vertical-align:bottom}\
th{color:var(--dim);font-weight:600}td:first-child,th:first-child,.text{text-align:left}\
td:first-child{min-width:6rem}summary{cursor:pointer;margin:.6rem 0}\
@media(max-width:30rem){td,th{padding:.25rem .45rem}td:first-child{min-width:3rem}}</style></head><body>\n";

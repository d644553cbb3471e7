//! How a page looks: nothing of it depends on the captures.

/// The style sheet of a page, without the element around it: the colours, in light and in dark; text, and what holds the page;
/// groups, with their heads and the columns of their rows; rows and tables; axes and marks of pictures; narrow screens, and
/// print. It has no reference to anything outside of the page.
pub(crate) const STYLE: &str = "\
:root{color-scheme:light dark;--bg:#fff;--fg:#171b20;--dim:#5a6571;--line:#e2e6ea;--base:#87929e;\
    --bar:#2b77b6;
--server:#5496cc;--tick:#5a6571;--bye:#171b20;--flush:#7b3fc4;--out:#c2470c}
@media screen and (prefers-color-scheme:dark){:root{--bg:#14171b;--fg:#e7eaee;--dim:#9aa5b1;\
    --line:#2a3037;
--base:#6b7683;--bar:#4192d6;--server:#3d78a8;--tick:#aeb8c2;--bye:#fff;--flush:#bf95f7;\
    --out:#ff9457}}
*{box-sizing:border-box}
body{margin:0;background:var(--bg);color:var(--fg);font:14px/1.45 system-ui,sans-serif;\
    font-variant-numeric:tabular-nums}
main{max-width:1180px;margin:0 auto;padding:32px 24px 64px}
h1{font-size:26px;line-height:1.2;margin:0 0 8px}
h2{font-size:18px;margin:40px 0 4px}
p{margin:0}
.lead{font-size:16px}
.note{color:var(--dim)}
.warn{color:var(--out);font-weight:600}
nav{margin-top:12px;display:flex;flex-wrap:wrap}
nav a{margin-right:18px;white-space:nowrap}
a{color:var(--bar)}
time{white-space:nowrap}
small{display:block;font-size:12px;color:var(--dim);font-weight:400}
bdi{white-space:pre-wrap;overflow-wrap:anywhere}
code{font:12.5px/1.5 ui-monospace,monospace;margin-right:8px;overflow-wrap:anywhere}
.g>details{margin-top:14px}
.g>details>summary{position:sticky;top:0;z-index:1;background:var(--bg);padding:5px 0 3px;\
    font-weight:600;cursor:pointer;list-style:none}
summary::-webkit-details-marker{display:none}
.g>details>summary>bdi{padding-left:16px}
.g>details>summary>bdi:before{content:\"\\25B8\";float:left;margin-left:-16px;color:var(--dim)}
.g>details[open]>summary>bdi:before{content:\"\\25BE\"}
.g>details>summary,li{display:grid;grid-template-columns:26% 1fr 26%;column-gap:20px;\
    align-items:start}
.g>details>summary>small{align-self:center}
.g>details:not([open])>summary>svg{visibility:hidden}
.l>details>summary,.l li{grid-template-columns:26% 34% 1fr}
ul{margin:0;padding:0;list-style:none}
li{border-top:1px solid var(--line);padding:5px 0;overflow:clip;break-inside:avoid}
li>*{min-width:0}
li>:first-child{padding-left:16px}
li>:last-child{font-size:13px}
li small{position:relative;background:var(--bg)}
table{border-collapse:collapse}
th,td{font-weight:400;text-align:left;padding:3px 24px 3px 0;border-top:1px solid var(--line)}
td:first-child{text-align:right}
svg{display:block;width:100%;overflow:visible}
li>.c{height:24px}
.d{position:absolute}
.x{height:18px;font-size:11px;font-weight:400;fill:var(--dim);text-anchor:middle}
.k{display:inline-block;width:26px;height:16px;vertical-align:-3px;margin-right:7px}
path{fill:none;vector-effect:non-scaling-stroke}
.v{stroke:var(--line)}
.n{stroke:var(--base)}
.r{stroke:var(--base);stroke-width:2}
.b{stroke:var(--bar);stroke-width:8}
.s{stroke:var(--server);stroke-width:3}
.t{stroke:var(--tick)}
.z{stroke:var(--bye);stroke-width:3}
.m1,.h1{stroke:var(--bye)}
.m2{stroke:var(--out)}
.m3,.h3{stroke:var(--flush)}
.m1,.m2,.m3{stroke-width:2}
.h1,.h3{stroke-width:8}
.h1{stroke-linecap:round}
.h3{stroke-linecap:square;stroke-width:6}
.key{color:var(--dim);margin-top:6px}
.key span{margin-right:22px;white-space:nowrap}
@media (max-width:1000px){.y+.y:nth-child(even){display:none}}
@media (max-width:680px){
main{padding:20px 14px 48px}
h1{font-size:22px}
.g>details>summary,li{grid-template-columns:minmax(45%,1fr) auto}
.g>details>summary>svg,li>svg{grid-area:2/1/3/3;margin-top:3px}
li>:first-child{padding:0}
li>:last-child{text-align:right}
.l>details>summary,.l li{grid-template-columns:1fr}
.l li>:last-child{text-align:left}
}
@media print{
main{max-width:none;padding:0}
body,small,li>:last-child{font-size:11px}
nav{display:none}
.g>details>summary{position:static;break-after:avoid}
.g>details::details-content{content-visibility:visible;block-size:auto}
}
";

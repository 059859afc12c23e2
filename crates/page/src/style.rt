//! The style of a page, for a screen, a dark screen, and paper.

/// The style of the umpire's words on when sheets are due: a long one is broken.
pub const STYLE_OF_DUE: &str = ".next b{overflow-wrap:anywhere}";

/// The style of a page. No rule for the content of a `use` depends on an ancestor, since it has
/// none there.
pub const STYLE: &str = "\n\
    :root{--P:#1e793d;--N:#3a3a3c;--C:#ca0b2d;--B:#0a57a4;--O:#5fb4dc;--E:#ebcc0c;\
    --H:#f0913a;--M:#5a2a6e;\n\
    --lP:#1e793d;--lN:#3a3a3c;--lC:#ca0b2d;--lB:#0a57a4;--lO:#2d7ea3;--lE:#655600;\
    --lH:#c66410;--lM:#5a2a6e;\n\
    --ink:#111;--paper:#fff;--rule:#bbb;--soft:#555;--band:#f1f1ee;color-scheme:light dark}\n\
    @media screen and (prefers-color-scheme:dark){:root{--ink:#eee;--paper:#1b1c1e;\
    --rule:#555;--soft:#aaa;--band:#2a2b2e;\
    --lP:#3b9b63;--lN:#a4a4a8;--lC:#ff5468;--lB:#5b90f4;--lO:#a9dcf2;--lE:#ffe600;\
    --lH:#f0913a;--lM:#ad79c0}}\n\
    body{margin:0 auto;max-width:1340px;padding:12px 16px;color:var(--ink);\
    background:var(--paper);font:15px/1.35 Arial,Helvetica,'Liberation Sans',sans-serif}\n\
    header{display:flex;flex-wrap:wrap;gap:4px 20px;align-items:baseline;\
    border-bottom:3px solid var(--ink)}\n\
    h1{font-size:25px;margin:0}h2{font-size:19px;margin:18px 0 6px}\
    h2 small,caption small{font-weight:normal;font-size:13px;color:var(--soft)}\n\
    .who{margin:0;font-weight:bold}nav{margin-left:auto}nav a{color:inherit;margin-left:10px}\n\
    .skip{position:absolute;left:-999px}.skip:focus{left:16px;padding:4px;\
    background:var(--paper);color:inherit}\
    .back{display:none;position:fixed;right:8px;bottom:8px;padding:11px 14px;background:#111;\
    color:#fff}main:has(li:target) .back{display:block}\n\
    section:focus-visible,a:focus-visible{outline:3px solid #1668b8}\n\
    .status{display:flex;flex-wrap:wrap;gap:6px 22px;margin:8px 0;padding:0;list-style:none}\
    .status small{display:block;font-size:12px;color:var(--soft)}\n\
    .status .next{border:2px solid var(--ink);padding:0 8px}\n\
    svg.map,svg.chart,.key{display:block;width:100%;height:auto;background:#fff;\
    border:1px solid var(--rule)}.key{display:none}\n\
    table{border-collapse:collapse;margin:12px 0 18px}.wide{width:100%}\
    caption{text-align:left;font-weight:bold;font-size:17px;padding:2px 0}\n\
    th,td{border-bottom:1px solid var(--rule);padding:3px 8px;text-align:left;\
    vertical-align:middle}\
    thead th{border-bottom:2px solid var(--ink);font-size:13px;vertical-align:bottom}\n\
    th[scope=row],.num{white-space:nowrap}\
    .num{text-align:right;font-variant-numeric:tabular-nums}.sum{background:var(--band)}\
    .via{color:var(--soft)}\n\
    .pair{display:flex;flex-wrap:wrap;gap:0 48px}\n\
    .tok{width:22px;height:22px;vertical-align:-6px;margin-right:5px}\
    .line{width:90px;height:14px;vertical-align:middle}\n\
    .tiles,.laid{list-style:none;margin:0;padding:0;display:flex;flex-wrap:wrap;gap:8px}\
    .tiles li{width:98px;text-align:center}.gone svg>*{opacity:.35}\n\
    .tile{display:block;width:98px;height:101px;background:#fff}.tile .n{font-size:13px}.laid{gap:2px 16px}\
    .laid li{min-width:84px}\n\
    text{font:12px Arial,Helvetica,'Liberation Sans',sans-serif;text-anchor:middle;fill:#000}\n\
    .st{text-anchor:start;font-size:14px}\n\
    .w{fill:#fff}.y{fill:#ffe45c}.g{fill:#97d784}.b{fill:#c5854d}.e{fill:#c6cace}\
    .r{fill:#f0a094}\n\
    svg use.w,svg use.y,svg use.g,svg use.b,svg use.e,svg use.r{stroke:#555;stroke-width:1}\n\
    .top{pointer-events:none}\n\
    .u,.t{fill:none}.u{stroke:#fff;stroke-width:11}.t{stroke:#000;stroke-width:7}\n\
    .k,.l{fill:none;stroke-linecap:round}.k{stroke:#000;stroke-width:33}\
    .l{stroke:#fff;stroke-width:30}\n\
    #s{fill:#fff;stroke:#000;stroke-width:1.5}#v{fill:#000;stroke:#fff;stroke-width:2}\
    #q{fill:#000;stroke:#fff;stroke-width:1.5}#d{fill:#fff;stroke:#000;stroke-width:1}\n\
    .zw{fill:#fff}.zm{font-size:11px;font-weight:bold}.z{font-weight:bold;font-size:17px}\
    .zr{font-size:14px;font-weight:bold}\n\
    .n{fill:#fff;font-size:11px;font-weight:bold}\n\
    .p{font-size:13px;font-weight:bold}.pw{font-size:14px;font-weight:bold;fill:#fff}\
    .f{font-size:14px}\n\
    .m{font-size:15px;font-weight:bold}.a,.c,.i{font-size:11px}\
    .nm{font-size:10.5px;font-weight:bold}\
    .c,.i,.nm{stroke:#fff;stroke-width:3px;stroke-linejoin:round;paint-order:stroke}\
    .j{font-size:13px;font-weight:bold}\n\
    .o{fill:#fff;stroke:#000}.x{fill:#000}\n\
    #fg,#fb,#fe,#fr,.fg,.fb,.fe,.fr{fill:none;stroke-width:2}\n\
    #fg,.fg{stroke:#14510c;stroke-dasharray:2 5}#fb,.fb{stroke:#4a2506}\
    #fe,.fe{stroke:#444;stroke-dasharray:9 6}#fr,.fr{stroke:#8c1010;stroke-width:5}\n\
    #h120{fill:#6b4a1f}#h80{fill:none;stroke:#1668b8;stroke-width:2}\n\
    .wa,.wb{fill:none;stroke:#000;stroke-width:11}\
    .wb{stroke:#fff;stroke-width:6;stroke-dasharray:5 5}\n\
    .leg{fill:#fff;stroke:#000;stroke-width:2}.tick{stroke:#000;stroke-width:9}\
    .big{font-size:22px;font-weight:bold}\n\
    .ra,.rb,.rc{fill:none;stroke-linejoin:round}.ra{stroke:#000;stroke-width:9}\
    .rb{stroke:#fff;stroke-width:7}.rc{stroke-width:7}.tk{stroke:#000;stroke-width:5}\
    .tw{stroke:#fff;stroke-width:2}\n\
    .sa,.sc{fill:none}.sa{stroke:#000;stroke-width:9}.sc{stroke-width:7}\n\
    #nh,#nt,#nm,.ne,.mv{fill:none;stroke:#e0007a}#nh{stroke-width:5}\
    #nw{fill:none;stroke:#fff;stroke-width:9}#nt,.ne{stroke-width:4}\
    #nm,.mv{stroke-width:3}.mh{fill:#e0007a;stroke:#fff;stroke-width:2;paint-order:stroke}\
    .mw{fill:none;stroke:#fff;stroke-width:6}\n\
    #sq{stroke:#777}.cw{fill:#fff}.chart .cy{fill:#fff1a8}.chart .co{fill:#f7b267}\
    .chart .cb{fill:#c08457}\n\
    .lg{font-size:16px}.tag{fill:#fff;stroke:#000}\
    .tt{text-anchor:start;font-size:12px;font-weight:bold}\n\
    #par{fill:none;stroke:#000;stroke-width:2}.pr{text-anchor:start;font-size:15px}\
    .zl{font-size:11px;font-weight:bold}.b0{font-size:13px;font-weight:bold}\n\
    .plot{display:block;width:100%;max-width:1000px;height:auto;background:#fff;\
    border:1px solid var(--rule)}\n\
    .phase{fill:none;stroke:#777;stroke-dasharray:2 3}.grid{fill:none;stroke:#ccc}.axis{text-anchor:end;font-size:13px}.when{font-size:12px}\
    .ser{fill:none;stroke-width:3;stroke-linejoin:round}\
    .lead{fill:none;stroke:#777;stroke-width:1}\
    .name{text-anchor:start;font-size:14px;font-weight:bold}\n\
    #figures td{text-align:right;font-variant-numeric:tabular-nums}.sheet td{padding:2px}\n\
    .did{margin:4px 0;max-width:80em}#whole+label{display:inline-block;padding:12px 8px 12px 0}\n\
    .told{white-space:pre-wrap;font:13px/1.35 ui-monospace,Consolas,'Liberation Mono',monospace}\
    .hexes{margin:0;padding:0;list-style:none;columns:22em;column-gap:24px}\
    .hexes li{break-inside:avoid;padding:2px 0;border-bottom:1px solid var(--rule)}\
    li:target{background:#ffe45c;color:#000}\n\
    @media screen{#whole:not(:checked)~.told{display:none}section{overflow-x:auto}svg.map,svg.chart{min-width:900px}\
    #ranks{min-width:min(31em,100%)}\
    .plot{min-width:560px}th[scope=row]{position:sticky;left:0;background:var(--paper)}\
    .sum th[scope=row]{background:var(--band)}}\n\
    @media screen and (prefers-color-scheme:dark){svg.chart,.plot{background:var(--paper)}\
    .chart text,.plot text{fill:#eee}.cw{fill:#26272a}.chart .cy{fill:#5c5413}\
    .chart .co{fill:#7a4a12}.chart .cb{fill:#5e3a1c}#par{stroke:#eee}.grid{stroke:#444}\
    .chart .mv{stroke:#ff4fa8}.mh{fill:#ff4fa8}}\n\
    @media screen and (max-width:700px){.on{display:none}.key{display:block}\
    svg.map{min-width:1120px}svg.chart{min-width:960px}.plot{min-width:760px}\
    #companies{min-width:1240px}\
    #map,#chart{position:relative;display:grid}#map>h2,#chart>h2,.key{position:sticky;left:0;\
    justify-self:start}.key{width:calc(100vw - 34px)}\
    .at{position:absolute;top:0;left:calc(var(--at)*112px + 56px);width:1px;height:1px;\
    scroll-initial-target:nearest;scroll-snap-align:center}\
    #chart .at{left:calc(var(--at)*96px + 48px)}\
    .at0{--at:0}.at1{--at:1}.at2{--at:2}.at3{--at:3}.at4{--at:4}.at5{--at:5}.at6{--at:6}\
    .at7{--at:7}.at8{--at:8}.at9{--at:9}\
    section{background:linear-gradient(90deg,var(--paper) 30%,transparent) 0 0/40px 100% local,\
    linear-gradient(270deg,var(--paper) 30%,transparent) 100% 0/40px 100% local,\
    linear-gradient(90deg,#0006,transparent) 0 0/14px 100% scroll,\
    linear-gradient(270deg,#0006,transparent) 100% 0/14px 100% scroll;\
    background-repeat:no-repeat}th[scope=row]{box-shadow:1px 0 var(--rule)}\
    nav{margin-left:0}nav a{display:inline-block;margin:0 10px 6px 0}\
    #runs thead{display:none}#runs tr{display:block;border-bottom:2px solid var(--rule);\
    padding:4px 0}#runs th,#runs td{display:inline-block;border:0;padding:1px 6px}\
    #runs .way{display:block}.told{font-size:11px}\
    @supports not (scroll-initial-target:nearest){#map,#chart{scroll-snap-type:x mandatory}\
    .at{animation:at 1s both}}}\n\
    @keyframes at{to{scroll-snap-align:none}}\n\
    @page{size:A4 landscape;margin:8mm}\n\
    @media print{body{max-width:none;padding:0;font-size:11px;\
    -webkit-print-color-adjust:exact;print-color-adjust:exact}nav{display:none}\n\
    .skip,.empty,.key,.back,#whole,#whole+label{display:none}h2,h3,caption,thead{break-after:avoid}\n\
    h1{font-size:18px}h2{font-size:15px;margin:4px 0}caption{font-size:14px}\
    #map h2{display:none}\n\
    header,.status,#result{float:left;clear:left;width:33mm;border:0;display:block}\
    #result caption small{display:none}#result td,#result th{padding:1px 3px}\
    .status{margin:8px 0}.status li{margin:0 0 7px}\n\
    #routes,#history,#tables,#tiles,#figures,#green,#brown{break-before:page}.told,.hexes{columns:2;\
    font-size:9px}.plot{height:74mm;width:auto}\
    tr,li,svg{break-inside:avoid}th,td{padding:1px 6px}table{margin:4px 0 8px}\n\
    svg.map{width:auto;height:191mm;margin-left:36mm;border:0}\
    #map table,#map p,#chart{clear:both}svg.chart{width:auto;height:128mm}\n\
    .tiles{gap:4px}.tiles li,.tile{width:78px}.tile{height:80px}.laid{gap:0 10px}\
    .laid li{min-width:66px}\n\
    .sheet thead{display:none}.sheet tbody{display:grid;grid-template-columns:1fr 1fr}\
    .sheet tr{display:flex;align-items:center}.sheet th{width:52px}\
    .sheet .tile{width:64px;height:66px}}\n";

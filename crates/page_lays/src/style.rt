//! The style of this crate's parts of a page.

/// The style, to follow that of all pages.
pub const STYLE: &str = "\n\
    .defs{position:absolute;width:0;height:0}[hidden]{display:none!important}\
    .lt{width:40px;height:40px;vertical-align:middle}\n\
    .r1{transform:rotate(60deg)}.r2{transform:rotate(120deg)}.r3{transform:rotate(180deg)}\
    .r4{transform:rotate(240deg)}.r5{transform:rotate(300deg)}\n\
    .do,.to{margin:2px 0}.do span{display:inline-block;margin:0 8px 4px 0}\
    .do>b,.to>b{display:inline-block;min-width:5em}.hexes li{margin-bottom:4px}\n\
    button,.to a{font:inherit;min-height:44px;min-width:44px;padding:0 8px;color:var(--ink);\
    background:var(--band);border:1px solid var(--rule);border-radius:4px}\
    .to a{display:inline-block;box-sizing:border-box;line-height:42px;margin:0 4px 4px 0;\
    text-align:center}\
    button[aria-pressed=true]{background:#1668b8;color:#fff;border-color:#1668b8}\n\
    .must,.norun{color:#a11;font-weight:bold}\n\
    .rim{pointer-events:none}.may{fill:none;stroke:#1668b8;stroke-width:5;\
    stroke-dasharray:10 5}.chosen .may{fill:#1668b8;fill-opacity:.25;stroke-dasharray:none}\
    .pill{text-anchor:start;font-weight:bold;font-size:13px;fill:#fff;stroke:#1668b8;\
    stroke-width:7px;paint-order:stroke;stroke-linejoin:round}\n\
    .hexes li.open{position:absolute;z-index:5;box-sizing:border-box;width:min(25em,92vw);\
    max-height:max(220px,calc(100vh - 330px));overflow:auto;background:var(--paper);\
    border:3px solid #1668b8;padding:8px;\
    scroll-margin:16px 0 240px}\n\
    #sheet{position:sticky;bottom:0;z-index:6;background:var(--paper);padding:4px 0;\
    border-top:3px solid var(--ink);overflow:visible}#sheet p{margin:4px 0}\
    .rest span{margin-right:1em}#sheet:not(.mine) :is(textarea,.rest){display:none}\
    textarea{box-sizing:border-box;width:100%;height:6em;font:14px monospace}\n\
    @media screen and (prefers-color-scheme:dark){.must,.norun{color:#ff8f88}}\n\
    @media print{#sheet{display:none}.lt{width:30px;height:30px}.hexes li.open{position:static}}\n";

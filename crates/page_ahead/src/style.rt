//! The style of the panel.

/// The style of the panel, behind that of all pages.
pub const STYLE_OF_PANEL: &str = "\
    #ahead{display:grid;grid-template-columns:minmax(0,400px) minmax(0,1fr);gap:0 36px;\
    margin:8px 0 0}#ahead table{margin:4px 0 8px;width:100%}#ahead caption{padding:0}\
    #ahead .send{grid-column:1/-1;background:#111;color:#fff;margin:0;padding:7px 12px;\
    font-size:17px;display:flex;flex-wrap:wrap;gap:2px 26px;align-items:baseline}\
    .send b{font-size:20px;overflow-wrap:anywhere}\n\
    .bar{display:block;width:100px;height:12px}.len{fill:#1668b8}.up{color:#14660f}.dn{color:#a11}\
    .due{font-size:13px}.due b{color:#a11}.hot{background:#fff1f0}.why{font-size:13px;margin:2px 0}\
    #sale .hot{font-weight:bold}\n\
    @media screen and (prefers-color-scheme:dark){.up{color:#7fdc76}.dn,.due b{color:#ff8f88}\
    .hot{background:#3a2022}}\n\
    @media screen and (max-width:700px){#ahead{grid-template-columns:minmax(0,1fr)}\
    #ahead .send{font-size:15px;gap:0 14px}#ahead .send b{font-size:16px}\
    #ahead td,#ahead th{padding:1px 3px}#ahead caption small{display:block;font-size:11px}\
    #ahead #leaders small{display:none}\
    #runners thead{display:none}#runners tr{display:flex;flex-wrap:wrap;align-items:center;\
    gap:0 6px;font-size:14px;border-bottom:1px solid var(--rule)}\
    #ahead #runners td,#ahead #runners th{border:0;background:none;box-shadow:none;position:static}\
    #runners .due{flex-basis:100%;font-size:12px}#runners .due:empty{display:none}\
    .bar{width:64px}nav{white-space:nowrap;overflow-x:auto}}\n\
    @media print{#ahead{margin-left:36mm}#ahead~#map{break-before:page}}\n";

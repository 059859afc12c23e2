//! The one script of a page, and the line by which a browser runs no other.

use crate::tag::Tag;
use crate::writer::Writer;

/// The script. It knows which words begin a block, in which order the steps of a turn come and
/// which lines of a block exclude one another, and no other rule.
///
/// - A press of a player's name shows their lines alone, and begins their sheet.
/// - A press of a line puts it into its block of the sheet, below the lines that the label around
///   it names, and takes away what it excludes; another press takes it back.
/// - A press of a hex shows its lines beside it, and another hides them.
/// - What is told of a line, of a company without a RUN and of a hex is by the text of the box.
const SCRIPT: &str = "\
    let d=document,all=s=>[...d.querySelectorAll(s)],one=s=>d.querySelector(s),\n\
    t=one('textarea'),me='',kept={},box,from,\n\
    w=x=>x.split(' ')[0],\n\
    at=e=>e.closest('[aria-label^=SHEET]').getAttribute('aria-label').split(' / '),\n\
    of=e=>at(e)[0].split(' ')[1],\n\
    lines=()=>t.value.split('\\n').map(x=>x.trim()).filter(x=>x),\n\
    find=p=>{let l=lines(),a=0,z=l.length,end=f=>{let n=l.slice(a,z).findIndex(f);if(n>=0)z=a+n};\n\
    for(let h of p){let i=l.slice(0,z).lastIndexOf(h);if(a>i)l.splice(i=z++,0,h);\n\
    a=i+1;end(x=>w(x)==w(h))}\n\
    end(x=>/^(TURN|COMPANY)\\b/.test(x));return{l,a,z}},\n\
    has=(e,f)=>{let{l,a,z}=find(at(e));return l.slice(a,z).some(f)},\n\
    step=x=>'LAY TOKEN RUN PAY WITHHOLD TRAIN PRIVATE SELL EXCHANGE BUY BID PAR'.indexOf(w(x)),\n\
    kind=x=>/ B20 |^DISC/.test(x)?x:/^(LAY|TOKEN|RUN)/.test(x)?w(x):/^(PAY|WITH)/.test(x)?'PAY':\n\
    /^(BUY|BID|PAR)/.test(x)?'BUY':x.replace(/ \\d+$/,''),\n\
    put=l=>{t.value=l.join('\\n')+'\\n';draw()},\n\
    press=b=>{if(!me)iam(of(b));\n\
    let x=b.textContent,p=at(b),{l,a,z}=find(p),i=l.slice(a,z).indexOf(x);\n\
    if(i>=0){l.splice(a+i,1);if(z-a==1&&p[1])l.splice(a-1,1)}\n\
    else{let n=l.length;l=l.filter((y,j)=>a>j||j>=z||kind(y)!=kind(x));z-=n-l.length;\n\
    i=l.slice(a,z).findIndex(y=>step(y)>step(x));l.splice(i>=0?a+i:z,0,x)}\n\
    put(l)},\n\
    say=s=>{let n=lines().length;one('.said').textContent=s+n+(n==1?' line':' lines')},\n\
    draw=()=>{\n\
    all('.do button').forEach(b=>b.setAttribute('aria-pressed',has(b,x=>x==b.textContent)));\n\
    let no=all('.do .norun');no.forEach(n=>n.hidden=has(n,x=>w(x)=='RUN'));\n\
    one('#sheet .norun').textContent=\n\
    no.filter(n=>!n.hidden&&of(n)==me).map(n=>n.textContent).join('; ');\n\
    all('.rim').forEach(r=>r.classList.toggle('chosen',\n\
    all('#hex-'+r.id.split('-')[1]+' [aria-pressed=true]').some(b=>of(b)==of(r))));say('')},\n\
    shut=()=>{if(box){box.classList.remove('open');\n\
    from.setAttribute('aria-expanded',false);box=0}},\n\
    iam=n=>{if(me)kept[me]=t.value;me=n;\n\
    t.value=n?kept[n]||all('.of').map(x=>at(x)[0]).find(x=>x.split(' ')[1]==n)+'\\n':'';\n\
    one('#sheet').classList.toggle('mine',!!n);\n\
    all('.who button').forEach(b=>b.setAttribute('aria-pressed',b.name==n));\n\
    all('[aria-label^=SHEET]').forEach(g=>g.toggleAttribute('hidden',!!n&&of(g)!=n));\n\
    shut();draw()},\n\
    show=(e,a)=>{let i=one(a.getAttribute('href')),g=[...i.querySelectorAll('.do')].\n\
    find(g=>g.offsetHeight);if(!g)return;\n\
    e.preventDefault();let same=box==i&&from==a;shut();if(same)return;\n\
    box=i;from=a;i.classList.add('open');a.setAttribute('aria-expanded',true);\n\
    let r=a.getBoundingClientRect(),v=d.documentElement.clientWidth,n=i.offsetWidth,\n\
    x=r.right+4,y=r.top;if(x+n>v)x=r.left-n-4;\n\
    if(0>x){x=Math.max(4,Math.min(r.left,v-n-4));y=r.bottom+4}\n\
    i.style.left=x+scrollX+'px';i.style.top=y+scrollY+'px';\n\
    i.scrollIntoView({block:'nearest'});g.querySelector('button').focus({preventScroll:true})};\n\
    d.onclick=e=>{let b=e.target.closest('button'),a=e.target.closest('a'),l=lines();\n\
    if(a&&/^#hex/.test(a.getAttribute('href')))show(e,a);if(!b)return;\n\
    if(b.closest('.do'))press(b);\n\
    else if(b.closest('.who'))iam(b.name==me?'':b.name);\n\
    else if(b.name=='turn'){if(l[l.length-1]!='TURN')put(l.concat('TURN'))}\n\
    else{t.select();say(d.execCommand('copy')?'Copied ':'Select and copy ')}};\n\
    d.onkeydown=e=>{if(e.key=='Escape'&&box){from.focus();shut()}};\n\
    t.oninput=draw;one('svg.map').append(...all('.rim'))";

/// The line of the head by which a browser runs this script alone, known by its hash, and loads
/// nothing. `./check page` computes the hash.
pub(crate) const POLICY: &str = "<meta http-equiv=\"Content-Security-Policy\" content=\"\
    default-src 'none'; base-uri 'none'; form-action 'none'; style-src 'unsafe-inline'; \
    script-src 'sha256-9BTCsDfOiAysIChBNkVILy9hRFGSVe6iI4mClZhxl8o='\">\n";

impl Writer {
    /// Adds the script.
    pub fn script(&mut self) {
        self.begin(Tag::Script);
        self.words(SCRIPT);
        self.end();
    }
}

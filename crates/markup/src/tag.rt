//! The elements of a page, and the attributes of their start tags.
ghost use Rattle.std.specs.Prelude.{◌≡◌};
ghost use Rattle.markup.specs.Tags.{name_of_tag, opening_of};

/// An element, by the meaning of its tag.
#[derive(Clone, Copy)]
pub enum Tag {
    Html,
    Head,
    Title,
    Style,
    Script,
    Body,
    Header,
    H1,
    H2,
    H3,
    Paragraph,
    Nav,
    Anchor,
    Button,
    TextArea,
    Main,
    Listing,
    Item,
    Small,
    Bold,
    Section,
    Svg,
    Desc,
    Defs,
    Path,
    Circle,
    Group,
    Text,
    TextSpan,
    Use,
    Polyline,
    Table,
    Caption,
    TableHead,
    TableBody,
    Row,
    Heading,
    Cell,
    Division,
    Span,
    Preformatted,
    Input,
    InputLabel,
}

/// An attribute of a start tag.
#[derive(Clone, Copy)]
pub enum Attr {
    Class,
    Id,
    Href,
    X,
    Y,
    D,
    R,
    Fill,
    Stroke,
    StrokeWidth,
    Dash,
    Points,
    Transform,
    ViewBox,
    Role,
    Scope,
    Hidden,
    Width,
    Height,
    Xmlns,
    TabIndex,
    Label,
    Kind,
    Name,
    For,
    Checked,
}

impl Tag {
    /// Returns the name in its tags.
    pub(crate) fn name(self) -> &'static str
        ensures { result.now ≡ name_of_tag self }
    {
        match self {
            Tag::Html => "html",
            Tag::Head => "head",
            Tag::Title => "title",
            Tag::Style => "style",
            Tag::Script => "script",
            Tag::Body => "body",
            Tag::Header => "header",
            Tag::H1 => "h1",
            Tag::H2 => "h2",
            Tag::H3 => "h3",
            Tag::Paragraph => "p",
            Tag::Nav => "nav",
            Tag::Anchor => "a",
            Tag::Button => "button",
            Tag::TextArea => "textarea",
            Tag::Main => "main",
            Tag::Listing => "ul",
            Tag::Item => "li",
            Tag::Small => "small",
            Tag::Bold => "b",
            Tag::Section => "section",
            Tag::Svg => "svg",
            Tag::Desc => "desc",
            Tag::Defs => "defs",
            Tag::Path => "path",
            Tag::Circle => "circle",
            Tag::Group => "g",
            Tag::Text => "text",
            Tag::TextSpan => "tspan",
            Tag::Use => "use",
            Tag::Polyline => "polyline",
            Tag::Table => "table",
            Tag::Caption => "caption",
            Tag::TableHead => "thead",
            Tag::TableBody => "tbody",
            Tag::Row => "tr",
            Tag::Heading => "th",
            Tag::Cell => "td",
            Tag::Division => "div",
            Tag::Span => "span",
            Tag::Preformatted => "pre",
            Tag::Input => "input",
            Tag::InputLabel => "label",
        }
    }

    /// Returns whether its start tag may also end it, as for an element without children.
    pub(crate) fn is_sole(self) -> bool {
        matches!(
            self,
            Tag::Path | Tag::Circle | Tag::Use | Tag::Polyline | Tag::Input
        )
    }
}

impl Attr {
    /// Returns what comes before its value: a space, its name, `=` and a quotation mark.
    pub(crate) fn opening(self) -> &'static str
        ensures { result.now ≡ opening_of self }
    {
        match self {
            Attr::Class => " class=\"",
            Attr::Id => " id=\"",
            Attr::Href => " href=\"",
            Attr::X => " x=\"",
            Attr::Y => " y=\"",
            Attr::D => " d=\"",
            Attr::R => " r=\"",
            Attr::Fill => " fill=\"",
            Attr::Stroke => " stroke=\"",
            Attr::StrokeWidth => " stroke-width=\"",
            Attr::Dash => " stroke-dasharray=\"",
            Attr::Points => " points=\"",
            Attr::Transform => " transform=\"",
            Attr::ViewBox => " viewBox=\"",
            Attr::Role => " role=\"",
            Attr::Scope => " scope=\"",
            Attr::Hidden => " aria-hidden=\"",
            Attr::Width => " width=\"",
            Attr::Height => " height=\"",
            Attr::Xmlns => " xmlns=\"",
            Attr::TabIndex => " tabindex=\"",
            Attr::Label => " aria-label=\"",
            Attr::Kind => " type=\"",
            Attr::Name => " name=\"",
            Attr::For => " for=\"",
            Attr::Checked => " checked=\"",
        }
    }
}

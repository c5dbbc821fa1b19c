//! The names of elements and of their attributes.

ghost use Rattle.std.specs.Prelude.{◌≡◌};
ghost use Rattle.markup.specs.Names as specs;

/// An element inside the root: of SVG 1.1, or of HTML.
#[derive(Clone, Copy)]
pub enum Tag {
    Bold,
    Code,
    Details,
    Division,
    Group,
    Heading,
    Item,
    Line,
    List,
    MainHeading,
    Paragraph,
    Path,
    Preformatted,
    Rect,
    Section,
    Span,
    Subheading,
    Summary,
    Svg,
    Table,
    TableBody,
    TableCell,
    TableHead,
    TableHeading,
    TableRow,
    Text,
}

/// An attribute of an element. None of them names a file, a style or a script.
#[derive(Clone, Copy)]
pub enum Attribute {
    AriaHidden,
    AriaLabel,
    D,
    Fill,
    FillOpacity,
    FontFamily,
    FontSize,
    Height,
    PreserveAspectRatio,
    Role,
    Scope,
    ShapeRendering,
    Stroke,
    StrokeDasharray,
    TextAnchor,
    Title,
    Transform,
    ViewBox,
    Width,
    X,
    X1,
    X2,
    Xmlns,
    Y,
    Y1,
    Y2,
}

impl Tag {
    /// Its name in a file.
    pub(crate) fn name(self) -> &'static str
        ensures { result.now ≡ specs.tag_name self }
    {
        match self {
            Tag::Bold => "b",
            Tag::Code => "code",
            Tag::Details => "details",
            Tag::Division => "div",
            Tag::Group => "g",
            Tag::Heading => "h2",
            Tag::Item => "li",
            Tag::Line => "line",
            Tag::List => "ul",
            Tag::Paragraph => "p",
            Tag::Path => "path",
            Tag::Preformatted => "pre",
            Tag::Rect => "rect",
            Tag::Section => "section",
            Tag::Span => "span",
            Tag::Subheading => "h3",
            Tag::Summary => "summary",
            Tag::Svg => "svg",
            Tag::Table => "table",
            Tag::TableBody => "tbody",
            Tag::TableCell => "td",
            Tag::TableHead => "thead",
            Tag::TableHeading => "th",
            Tag::TableRow => "tr",
            Tag::Text => "text",
            Tag::MainHeading => "h1",
        }
    }

    /// Whether it is an element of SVG.
    pub(crate) fn is_svg(self) -> bool
        ensures { result ≡ specs.is_svg self }
    {
        match self {
            Tag::Group | Tag::Line | Tag::Path | Tag::Rect | Tag::Svg | Tag::Text => true,
            _ => false,
        }
    }
}

impl Attribute {
    /// Its name in a file.
    pub(crate) fn name(self) -> &'static str
        ensures { result.now ≡ specs.attribute_name self }
    {
        match self {
            Attribute::AriaHidden => "aria-hidden",
            Attribute::AriaLabel => "aria-label",
            Attribute::D => "d",
            Attribute::Fill => "fill",
            Attribute::FillOpacity => "fill-opacity",
            Attribute::FontFamily => "font-family",
            Attribute::FontSize => "font-size",
            Attribute::Height => "height",
            Attribute::PreserveAspectRatio => "preserveAspectRatio",
            Attribute::Role => "role",
            Attribute::Scope => "scope",
            Attribute::ShapeRendering => "shape-rendering",
            Attribute::Stroke => "stroke",
            Attribute::StrokeDasharray => "stroke-dasharray",
            Attribute::TextAnchor => "text-anchor",
            Attribute::Title => "title",
            Attribute::Transform => "transform",
            Attribute::ViewBox => "viewBox",
            Attribute::Width => "width",
            Attribute::X => "x",
            Attribute::X1 => "x1",
            Attribute::X2 => "x2",
            Attribute::Xmlns => "xmlns",
            Attribute::Y => "y",
            Attribute::Y1 => "y1",
            Attribute::Y2 => "y2",
        }
    }
}

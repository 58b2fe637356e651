//! A layout as SVG.

ghost use Rattle.std.specs.Prelude.{IfOk};
ghost use Rattle.std.specs.String.{string_bytes};
ghost use Rattle.tftp_diagram.specs.Svg.{IsSvg};

use crate::diagram::Diagram;
use crate::escape::push_escaped;
use crate::layout::{Anchor, Font, Frame, Layout, Line, Point, Sign, SignKind, Stroke, Text};
use std::alloc::{AllocError, Global};

/// The start of the root element.
const HEAD: &str = "<svg xmlns=\"http://www.w3.org/2000/svg\" ";

/// The end of the root element.
const FOOT: &str = "</svg>\n";

/// The end of the title, then the colours, the fonts and the heads of arrows, and the background,
/// which makes the picture legible on light and dark pages.
static STYLE: &str = "\
</title>
<style>
.page,.frame{fill:#fdfdfb}
.page{stroke:#d0d7de}
.code{font:12px ui-monospace,SFMono-Regular,Menlo,Consolas,'DejaVu Sans Mono',monospace}
.plain{font:12px system-ui,-apple-system,'Segoe UI','DejaVu Sans',sans-serif}
.title{font:600 15px system-ui,-apple-system,'Segoe UI','DejaVu Sans',sans-serif}
line,path,.frame{stroke-width:1.5px}
.lane{stroke-width:1px;stroke-dasharray:2 4;opacity:.6}
.open{stroke-width:3px}
.repeat{stroke-dasharray:6 4}
.handover{stroke-dasharray:1 3}
.leader{stroke:#57606a;stroke-width:1px;opacity:.5}
.cross{stroke-width:2.5px}
.clock{fill:#fdfdfb}
.bar{stroke-width:4px}
line.client,path.client,rect.client{stroke:#0a58ca}
line.server,path.server,rect.server{stroke:#1a7f37}
line.stranger,path.stranger,rect.stranger{stroke:#8250df}
path.complete{stroke:#1a7f37}
path.lost{stroke:#cf222e}
path.timeout{stroke:#9a6700}
text.client{fill:#0a58ca}
text.server{fill:#1a7f37}
text.stranger{fill:#8250df}
text.complete{fill:#1a7f37}
text.lost{fill:#cf222e}
text.timeout{fill:#9a6700}
text.quiet{fill:#57606a}
.arrow.client{marker-end:url(#client)}
.arrow.server{marker-end:url(#server)}
.arrow.stranger{marker-end:url(#stranger)}
</style>
<defs>
<marker id=\"client\" viewBox=\"0 0 10 8\" refX=\"10\" refY=\"4\" markerWidth=\"10\" \
markerHeight=\"8\" markerUnits=\"userSpaceOnUse\" orient=\"auto\">\
<path d=\"M0 0L10 4L0 8Z\" fill=\"#0a58ca\"/></marker>
<marker id=\"server\" viewBox=\"0 0 10 8\" refX=\"10\" refY=\"4\" markerWidth=\"10\" \
markerHeight=\"8\" markerUnits=\"userSpaceOnUse\" orient=\"auto\">\
<path d=\"M0 0L10 4L0 8Z\" fill=\"#1a7f37\"/></marker>
<marker id=\"stranger\" viewBox=\"0 0 10 8\" refX=\"10\" refY=\"4\" markerWidth=\"10\" \
markerHeight=\"8\" markerUnits=\"userSpaceOnUse\" orient=\"auto\">\
<path d=\"M0 0L10 4L0 8Z\" fill=\"#8250df\"/></marker>
</defs>
<rect class=\"page\" width=\"100%\" height=\"100%\" rx=\"8\"/>
";

/// The picture of a diagram, as the text of an SVG file.
pub fn svg_text(alloc: Global, diagram: &Diagram) -> Result<String, AllocError>
    ensures { IfOk result (λ svg. IsSvg (string_bytes svg)) }
{
    let content = content_of(alloc, diagram)?;
    let mut svg = String::from_str(alloc, HEAD)?;
    svg.push_str(content.as_str())?;
    svg.push_str(FOOT)?;
    Ok(svg)
}

/// What is between the name of the root element and its end: its other attributes, its title, the
/// style and the parts of the picture.
fn content_of(alloc: Global, diagram: &Diagram) -> Result<String, AllocError> {
    let layout = Layout::new(alloc, diagram)?;
    let mut svg = String::new(alloc);
    match push_content(&mut svg, &layout, diagram.title.as_str()) {
        Ok(()) => Ok(svg),
        Err(fault) => Err(fault),
    }
}

fn push_content(svg: &mut String, layout: &Layout, title: &str) -> Result<(), AllocError> {
    push_head(svg, layout, title)?;
    for line in &layout.lines {
        push_line(svg, line)?;
    }
    for frame in &layout.frames {
        push_frame(svg, frame)?;
    }
    for sign in &layout.signs {
        push_sign(svg, sign)?;
    }
    for text in &layout.texts {
        push_text(svg, text)?;
    }
    Ok(())
}

/// The other attributes of the root element, its title, the style and the background.
fn push_head(svg: &mut String, layout: &Layout, title: &str) -> Result<(), AllocError> {
    let (width, height) = (layout.width, layout.height);
    write!(
        svg,
        "width=\"{width}\" height=\"{height}\" viewBox=\"0 0 {width} {height}\" role=\"img\">\n<title>"
    )?;
    push_escaped(svg, title)?;
    svg.push_str(STYLE)
}

fn push_line(svg: &mut String, line: &Line) -> Result<(), AllocError> {
    let stroke = stroke_class(line.stroke);
    let ink = line.ink.class();
    let (x1, y1) = (line.from.x, line.from.y);
    let (x2, y2) = (line.to.x, line.to.y);
    writeln!(
        svg,
        "<line class=\"{stroke} {ink}\" x1=\"{x1}\" y1=\"{y1}\" x2=\"{x2}\" y2=\"{y2}\"/>"
    )
}

fn push_frame(svg: &mut String, frame: &Frame) -> Result<(), AllocError> {
    let edge = match frame.edge {
        Some(ink) => ink.class(),
        None => "plain",
    };
    let Point { x, y } = frame.corner;
    let (width, height) = (frame.width, frame.height);
    writeln!(
        svg,
        "<rect class=\"frame {edge}\" x=\"{x}\" y=\"{y}\" width=\"{width}\" height=\"{height}\" rx=\"6\"/>"
    )
}

/// A sign, whose middle is its point.
fn push_sign(svg: &mut String, sign: &Sign) -> Result<(), AllocError> {
    let ink = sign.ink.class();
    let Point { x, y } = sign.at;
    let (class, path) = sign_path(sign.kind);
    writeln!(
        svg,
        "<path class=\"{class} {ink}\" transform=\"translate({x} {y})\" d=\"{path}\"/>"
    )
}

fn push_text(svg: &mut String, text: &Text) -> Result<(), AllocError> {
    let font = font_class(text.font);
    let ink = text.ink.class();
    let anchor = anchor_word(text.anchor);
    let Point { x, y } = text.at;
    write!(
        svg,
        "<text class=\"{font} {ink}\" x=\"{x}\" y=\"{y}\" text-anchor=\"{anchor}\">"
    )?;
    push_escaped(svg, text.text.as_str())?;
    svg.push_str("</text>\n")
}

/// The class of a sign, and its path.
fn sign_path(kind: SignKind) -> (&'static str, &'static str) {
    match kind {
        SignKind::Cross => ("cross", "M-6-6L6 6M-6 6L6-6"),
        SignKind::Clock => ("clock", "M-7 0a7 7 0 1 0 14 0a7 7 0 1 0-14 0M0-4V0L3 2"),
        SignKind::Bar => ("bar", "M-8 0H8"),
        SignKind::Square => ("clock", "M-6-6H6V6H-6ZM-6 6L6-6"),
    }
}

fn stroke_class(stroke: Stroke) -> &'static str {
    match stroke {
        Stroke::Lane => "lane",
        Stroke::Open => "open",
        Stroke::Arrow => "arrow",
        Stroke::Repeat => "arrow repeat",
        Stroke::Stub => "stub",
        Stroke::Handover => "handover",
        Stroke::Leader => "leader",
    }
}

fn font_class(font: Font) -> &'static str {
    match font {
        Font::Code => "code",
        Font::Plain => "plain",
        Font::Title => "title",
    }
}

fn anchor_word(anchor: Anchor) -> &'static str {
    match anchor {
        Anchor::Start => "start",
        Anchor::Middle => "middle",
        Anchor::End => "end",
    }
}

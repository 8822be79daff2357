// Pictures as SVG text, with a few shapes.

ghost use Rattle.std.specs.Prelude.{◌≡◌, ◌++◌, ◌∷◌, [], IfOk, OnOk};
ghost use Rattle.std.specs.String.{string_bytes};
ghost use Rattle.drawn.specs.Svg.{text_so_far, place_at, sign_text, pixels_text, character_in_xml, in_xml, lengths_text, text_shape, line_shape, rectangle_shape, sheet_opened, sheet_titled, sheet_whitened, sheet, sheet_end};

use std::alloc::{AllocError, Global};
use std::fmt::Write;

// A length or a place, in tenths of a pixel.
pub type Tenths = i64;

// A place in a picture: from its left edge, and from its upper one.
#[derive(Clone, Copy)]
pub struct Place {
    pub x: Tenths,
    pub y: Tenths,
}

impl Place {
    pub fn new(x: Tenths, y: Tenths) -> Place
        ensures { result ≡ place_at x y }
    {
        Place { x, y }
    }

    // The place that lies so far to the right and below.
    pub fn moved(self, right: Tenths, down: Tenths) -> Place {
        Place {
            x: self.x.saturating_add(right),
            y: self.y.saturating_add(down),
        }
    }
}

// A picture that is being drawn.
#[derive(Drop)]
pub struct Picture {
    alloc: Global,
    text: String,
}

type Done = Result<(), AllocError>;

const TENTHS: u64 = 10; // in a pixel

// The sign of a length.
fn sign(tenths: Tenths) -> &'static str
    ensures { result.now ≡ sign_text tenths }
{
    if tenths < 0 { "-" } else { "" }
}

// `123` tenths as `12.3`.
#[tactic(auto, unfolding(crate::specs::Svg::pixels_text))]
fn pixels(alloc: Global, tenths: Tenths) -> Result<String, AllocError>
    ensures { IfOk result (λ text. string_bytes text ≡ pixels_text tenths) }
{
    let sign = sign(tenths);
    let size = tenths.unsigned_abs();
    let (whole, rest) = (size / TENTHS, size % TENTHS);
    if rest == 0 {
        format!(in alloc; "{sign}{whole}")
    } else {
        format!(in alloc; "{sign}{whole}.{rest}")
    }
}

// A text as XML has it; what XML does not allow is replaced.
fn escaped(alloc: Global, text: &str) -> Result<String, AllocError>
    ensures { IfOk result (λ out. string_bytes out ≡ in_xml text.now) }
{
    let mut out = String::new(alloc);
    for character in text.chars() {
        put(&mut out, character)?;
    }
    Ok(out)
}

// Adds a character as XML has it; one that XML does not allow is replaced.
#[tactic(auto, unfolding(crate::specs::Svg::character_in_xml))]
pub fn put(out: &mut String, character: char) -> Done
    ensures { OnOk result (string_bytes out.new ≡ string_bytes out.old ++ character_in_xml character) }
{
    match character {
        '&' => out.push_str("&amp;"),
        '<' => out.push_str("&lt;"),
        '>' => out.push_str("&gt;"),
        '"' => out.push_str("&quot;"),
        '\u{fffe}' | '\u{ffff}' => out.push('\u{fffd}'),
        _ if character.is_control() => out.push('\u{fffd}'),
        _ => out.push(character),
    }
}

// Two lengths as attributes of these names.
#[tactic(auto, using(crate::proofs::Shapes::lengths_are))]
fn lengths(
    alloc: Global,
    across: &str,
    x: Tenths,
    down: &str,
    y: Tenths,
) -> Result<String, AllocError>
    ensures { IfOk result (λ text. string_bytes text ≡ lengths_text across.now x down.now y) }
{
    let (x, y) = (pixels(alloc, x)?, pixels(alloc, y)?);
    format!(in alloc; "{across}=\"{x}\" {down}=\"{y}\"")
}

impl Picture {
    // An empty picture on white, with a title that readers of screens are told.
    pub fn new(
        alloc: Global,
        width: Tenths,
        height: Tenths,
        title: &str,
    ) -> Result<Picture, AllocError>
        ensures { IfOk result (λ picture. text_so_far picture ≡ sheet width height title.now) }
    {
        let mut picture = Picture::open(alloc, width, height)?;
        picture.entitle(title)?;
        picture.whiten(width, height)?;
        Ok(picture)
    }

    // What stands before the title.
    fn open(alloc: Global, width: Tenths, height: Tenths) -> Result<Picture, AllocError>
        ensures { IfOk result (λ picture. text_so_far picture ≡ sheet_opened width height) }
    {
        let size = lengths(alloc, "width", width, "height", height)?;
        let (width, height) = (pixels(alloc, width)?, pixels(alloc, height)?);
        let text = format!(in alloc;
            "<svg xmlns=\"http://www.w3.org/2000/svg\" {size} viewBox=\"0 0 {width} {height}\" role=\"img\" font-family=\"sans-serif\" font-size=\"12\">\n"
        )?;
        Ok(Picture { alloc, text })
    }

    // The title.
    #[tactic(auto, unfolding(crate::specs::Svg::sheet_titled))]
    fn entitle(&mut self, title: &str) -> Done
        ensures { OnOk result (text_so_far self.new ≡ text_so_far self.old ++ sheet_titled title.now) }
    {
        let title = escaped(self.alloc, title)?;
        write!(self.text, "<title>{title}</title>\n")
    }

    // The white ground.
    #[tactic(auto, unfolding(crate::specs::Svg::sheet_whitened))]
    fn whiten(&mut self, width: Tenths, height: Tenths) -> Done
        ensures { OnOk result (text_so_far self.new ≡ text_so_far self.old ++ sheet_whitened width height) }
    {
        let size = lengths(self.alloc, "width", width, "height", height)?;
        write!(self.text, "<rect {size} fill=\"white\"/>\n")
    }

    // A line of SVG as it is.
    pub fn raw(&mut self, line: &str) -> Done
        ensures { OnOk result (text_so_far self.new ≡ text_so_far self.old ++ line.now ++ (10 ∷ [])) }
    {
        self.text.push_str(line)?;
        self.text.push('\n')
    }

    // A text from a place on; `style` has further attributes, as `text-anchor="end"`.
    #[tactic(auto, using(crate::proofs::Shapes::text_is))]
    pub fn text(&mut self, at: Place, style: &str, text: &str) -> Done
        ensures { OnOk result (text_so_far self.new ≡ text_so_far self.old ++ text_shape at style.now text.now) }
    {
        let at = lengths(self.alloc, "x", at.x, "y", at.y)?;
        let text = escaped(self.alloc, text)?;
        write!(self.text, "<text {at} {style}>{text}</text>\n")
    }

    // A straight line.
    pub fn line(&mut self, from: Place, to: Place, style: &str) -> Done
        ensures { OnOk result (text_so_far self.new ≡ text_so_far self.old ++ line_shape from to style.now) }
    {
        let from = lengths(self.alloc, "x1", from.x, "y1", from.y)?;
        let to = lengths(self.alloc, "x2", to.x, "y2", to.y)?;
        write!(self.text, "<line {from} {to} {style}/>\n")
    }

    // A rectangle from its upper left corner.
    pub fn rectangle(&mut self, corner: Place, width: Tenths, height: Tenths, style: &str) -> Done
        ensures { OnOk result (text_so_far self.new ≡ text_so_far self.old ++ rectangle_shape corner width height style.now) }
    {
        let corner = lengths(self.alloc, "x", corner.x, "y", corner.y)?;
        let size = lengths(self.alloc, "width", width, "height", height)?;
        write!(self.text, "<rect {corner} {size} {style}/>\n")
    }

    // Places one after the other, each as `12.3,45`.
    fn points(&self, places: &[Place]) -> Result<String, AllocError> {
        let mut points = String::new(self.alloc);
        for place in places {
            if !points.is_empty() {
                points.push(' ')?;
            }
            let (x, y) = (pixels(self.alloc, place.x)?, pixels(self.alloc, place.y)?);
            write!(points, "{x},{y}")?;
        }
        Ok(points)
    }

    // Lines from each place to the next.
    pub fn path(&mut self, places: &[Place], style: &str) -> Done {
        let points = self.points(places)?;
        write!(
            self.text,
            "<polyline points=\"{points}\" fill=\"none\" {style}/>\n"
        )
    }

    // A shape with these corners.
    pub fn polygon(&mut self, corners: &[Place], style: &str) -> Done {
        let points = self.points(corners)?;
        write!(self.text, "<polygon points=\"{points}\" {style}/>\n")
    }

    // A circle.
    pub fn circle(&mut self, centre: Place, radius: Tenths, style: &str) -> Done {
        let centre = lengths(self.alloc, "cx", centre.x, "cy", centre.y)?;
        let radius = pixels(self.alloc, radius)?;
        write!(self.text, "<circle {centre} r=\"{radius}\" {style}/>\n")
    }

    // The whole text.
    pub fn finished(self) -> Result<String, AllocError>
        ensures { IfOk result (λ text. string_bytes text ≡ text_so_far self ++ sheet_end) }
    {
        let mut text = self.text;
        text.push_str("</svg>\n")?;
        Ok(text)
    }
}

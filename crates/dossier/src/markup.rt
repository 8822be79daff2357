// Pieces of HTML text. Whatever is no markup of ours goes through `add`, which escapes it.
use drawn::svg;
use std::alloc::AllocError;
use std::fmt::Write;

pub type Done = Result<(), AllocError>;

// Adds a text. What HTML would take for markup is escaped, and what it does not allow is replaced; tabs and line ends stay.
pub fn add(page: &mut String, text: &str) -> Done {
    for character in text.chars() {
        match character {
            '\t' | '\n' => page.push(character)?,
            _ => svg::put(page, character)?,
        }
    }
    Ok(())
}

// An element that has nothing but a text: its tag, with attributes if there are any, its name, and the text.
pub fn element(page: &mut String, tag: &str, name: &str, text: &str) -> Done {
    write!(page, "<{tag}>")?;
    add(page, text)?;
    write!(page, "</{name}>\n")
}

// A paragraph.
pub fn paragraph(page: &mut String, text: &str) -> Done {
    element(page, "p", "p", text)
}

// The heading of a section.
pub fn heading(page: &mut String, text: &str) -> Done {
    element(page, "h2", "h2", text)
}

// A cell that heads a row, and one that heads a column.
pub fn row_head(page: &mut String, text: &str) -> Done {
    element(page, "th scope=\"row\"", "th", text)
}

pub fn column_head(page: &mut String, text: &str) -> Done {
    element(page, "th scope=\"col\"", "th", text)
}

// A cell of words, and one of a figure.
pub fn words_cell(page: &mut String, text: &str) -> Done {
    element(page, "td", "td", text)
}

pub fn figure_cell(page: &mut String, text: &str) -> Done {
    element(page, "td class=\"n\"", "td", text)
}

// A cell of something that is missing, or is no.
pub fn missing_cell(page: &mut String, text: &str) -> Done {
    element(page, "td class=\"n no\"", "td", text)
}

// What stands around a table that may be wider than a telephone, which scrolls it then.
pub fn open_wide(page: &mut String, label: &str) -> Done {
    page.push_str("<div class=\"wide\" role=\"region\" tabindex=\"0\" aria-label=\"")?;
    add(page, label)?;
    page.push_str("\">\n")
}

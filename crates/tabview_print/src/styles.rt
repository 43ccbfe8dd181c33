//! The styles by their names.
ghost use Rattle.std.specs.Prelude.{◌≡◌, option_map};
ghost use Rattle.tabview_print.specs.Styles.{draws_line, is_markdown, style_for, style_of};

use tabled_config::Style;

/// Returns the style for a table of some rows. Its line below the first row is drawn if this is a
/// header, and if rows are below it or the table has no line at its bottom. That of Markdown is no
/// part of its style: `markdown_rule` returns it.
pub fn style_for(name: Option<&str>, has_header: bool, rows: usize) -> Style
    ensures { result ≡ style_for (option_map (λ s. s.now) name.entry) has_header rows }
{
    let style = style_of(name);
    if draws_line(name, has_header, rows, &style) {
        style
    } else {
        style.remove_horizontals()
    }
}

/// Whether the line below the first row is drawn.
fn draws_line(name: Option<&str>, has_header: bool, rows: usize, style: &Style) -> bool
    ensures { result ≡ draws_line (option_map (λ s. s.now) name.entry) has_header rows style.now }
{
    let has_end = rows != 1 || style.get_borders().bottom.is_none();
    !is_markdown(name) && (has_header && has_end)
}

/// Whether a style is that of tables of Markdown.
pub fn is_markdown(name: Option<&str>) -> bool
    ensures { result ≡ is_markdown (option_map (λ s. s.now) name.entry) }
{
    match name {
        Some(name) => name == "markdown",
        None => false,
    }
}

/// Returns the style of a name, `rounded` without one.
pub fn style_of(name: Option<&str>) -> Style
    ensures { result ≡ style_of (option_map (λ s. s.now) name.entry) }
{
    match name {
        Some(name) => named_style(name),
        None => Style::rounded(),
    }
}

fn named_style(name: &str) -> Style
    ensures { result ≡ style_of (Some name.now) }
{
    match name {
        "sharp" => Style::sharp(),
        "modern" => Style::modern(),
        "modern-rounded" => Style::modern_rounded(),
        "ascii" => Style::ascii(),
        "ascii-rounded" => Style::ascii_rounded(),
        "extended" => Style::extended(),
        "markdown" => Style::markdown(),
        "psql" => Style::psql(),
        "rst" => Style::re_structured_text(),
        "blank" => Style::blank(),
        "empty" => Style::empty(),
        _ => Style::rounded(),
    }
}

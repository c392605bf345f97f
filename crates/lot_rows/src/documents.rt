//! Small documents, and their frames at the start.

/// An animation without layers.
pub const EMPTY: &str = r#"{"w":10,"h":10,"fr":30,"ip":0,"op":60,"layers":[]}"#;

/// The 105 bytes of its frame.
pub const EMPTY_SVG: &str =
    r#"<svg xmlns="http://www.w3.org/2000/svg" version="1.1" width="10" height="10" viewBox="0 0 10 10">
</svg>
"#;

/// An animation of one red layer that fills it.
pub const SOLID: &str =
    r##"{"w":10,"h":10,"fr":30,"ip":0,"op":60,"layers":[{"ty":1,"ip":0,"op":60,"ks":{},"sw":10,"sh":10,"sc":"#ff0000"}]}"##;

/// The 163 bytes of its frame.
pub const SOLID_SVG: &str =
    r##"<svg xmlns="http://www.w3.org/2000/svg" version="1.1" width="10" height="10" viewBox="0 0 10 10">
<g>
<path fill="#ff0000" d="M0 0L10 0L10 10L0 10Z"/>
</g>
</svg>
"##;

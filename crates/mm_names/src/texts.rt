/// What stands beside the first of some texts that a word is: one test after another, each with a
/// text that is known when it is compiled.
macro_rules! among {
    ($word:expr, $($text:literal => $value:expr,)*) => {{
        $(
            if is_text($word, $text) {
                return Some($value);
            }
        )*
        None
    }};
}

pub(crate) use among;

//! Tables of words: what a word stands for.

ghost use Rattle.std.specs.Prelude.{◌≡◌, option_map};
ghost use Rattle.std.specs.List.{find};
ghost use Rattle.std.specs.Str.{bytes_eq};

/// What the first row of a table with this word has, if there is one.
pub fn find_word<K: Copy>(rows: &[(&str, K)], word: &str) -> Option<K>
    ensures { result ≡ option_map (λ row. row.1) (find (λ row. bytes_eq word.now row.0.now) rows.now) }
{
    let row = rows.iter().find(|row| word == row.0)?;
    Some(row.1)
}

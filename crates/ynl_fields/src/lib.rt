//! Lines of JSON, whatever they tell: what stands under their keys, the pieces that their texts are put together from,
//! and those that lines in the compact form are cut into.
#![tactic(auto)]

pub use adding::{add, add_id, add_label, add_name, add_number, add_path, add_text};
pub use blanks::is_blank;
pub use cursor::Cursor;
pub use fields::Fields;
pub use keys::{
    id_at, keys_are, label_at, name_at, number_at, path_at, share_at, size_at, text_at, within,
    within_small,
};
pub use tables::find_word;
pub use trees::{is_plain, tree_of};
pub use values::parse;

mod adding;
mod blanks;
mod cursor;
mod cutting;
mod fields;
mod keys;
mod numbers;
mod tables;
mod trees;
mod values;

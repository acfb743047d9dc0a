//! Listings of BTF types: a line for each type, and one for each of its items.

pub(crate) mod head_lines;
pub(crate) mod item_lines;
pub(crate) mod quoted_name;
pub(crate) mod show;
pub(crate) mod text_parts;

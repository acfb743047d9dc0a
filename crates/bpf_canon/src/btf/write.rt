//! BTF records, written in canonical form (btf.rst section 2.2).

pub(crate) mod head_words;
pub(crate) mod sections;
pub(crate) mod table;

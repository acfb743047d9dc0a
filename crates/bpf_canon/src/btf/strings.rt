//! The string table in which the names of a file share suffixes (btf.rst section 2.1), computed
//! from string offsets only.
//!
//! Here the records of a file refer to `int`, `foo` and `barfoo`, in this order, and each has a
//! string of its own. In the new table `foo` is at the end of `barfoo`, which is its host. If it
//! were there in the file too, the same bytes would be written. A dot is a NUL.
//!
//! ```text
//! offset             0   1         5         9               16
//! string section     | . | i n t . | f o o . | b a r f o o . |
//!
//! offset             0   1         5       8       12
//! string table       | . | i n t . | b a r f o o . |
//!
//! name     name_off   number   rank   common   host     new name_off
//! int      1          0        2      0        int      1
//! foo      5          1        0      0        barfoo   8 = 5 + 6 - 3
//! barfoo   9          2        1      3        barfoo   5
//! ```
//!
//! - `used_offsets.rt`: the offsets in use are noted in the order of first use. The number of one
//!   is how many smaller ones are in use.
//! - `ranked_texts.rt`: of the names that end at the same NUL only the longest can be a host. These
//!   are sorted by their bytes from the end, which gives each a rank and the length of the suffix
//!   that it has in common with the one before it.
//! - `shared_offsets.rt`: the host of a name is found from the first rank whose string ends with
//!   it: it is the next string, from there on, that isn't a suffix of the one after it. Hosts are
//!   appended to the table in the order of first use, and each name is at the end of its host.
//! - `distinct_offsets.rt`: instead, the table of a canonical object file, in which no names share
//!   bytes.
//!
//! A hash could only find equal strings, and a host is a longer one. Sorting puts strings with a
//! common end next to each other, and nobody can choose names that collide. That the hosts are
//! those of the definition follows from the laws `longest_names_tell_hosts` and
//! `common_suffixes_tell_hosts` of `btf_types`. A table without sections has another algorithm
//! (`names.rt`).

pub(crate) mod distinct_offsets;
pub(crate) mod new_name_offsets;
mod ranked_texts;
pub(crate) mod shared_offsets;
pub(crate) mod used_offsets;

//! Tests of the calls of the libraries.

#![tactic(auto)]

#[cfg(test)]
mod of_bpf_canon;
#[cfg(test)]
mod of_bpf_elf;
#[cfg(test)]
mod of_bpf_insn;
#[cfg(test)]
mod of_bpf_object;
#[cfg(test)]
mod of_bpf_text;
#[cfg(test)]
mod of_bpf_words;
#[cfg(test)]
mod of_btf_raw;
#[cfg(test)]
mod of_btf_types;

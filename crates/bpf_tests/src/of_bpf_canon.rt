//! Tests of the calls of this crate: worked examples, devices in pieces and failing, failing allocations, and the largest inputs.

mod arena;
mod btf;
mod btf_files;
mod btf_run;
mod compiled_programs;
mod compiled_types;
mod devices;
mod expect;
mod faulty_btf;
mod feed;
mod files;
mod fused_devices;
mod largest;
mod limit;
mod long_names;
mod memory;
mod nested_names;
mod own_table;
mod plain_table;
mod run;
mod samples;

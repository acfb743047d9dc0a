//! Tests of what contracts cannot express: worked examples, failing devices, sinks without
//! memory, and the messages of errors.

mod arena;
mod btf_files;
mod devices;
mod errors;
mod example_results;
mod expect;
mod full_sinks;
mod library_example;
mod lines;
mod options;
mod rows;
mod runner;
mod vectors;

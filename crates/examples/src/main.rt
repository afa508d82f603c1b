//! Examples of each way to use the libraries: one module each, called in turn.
//!
//! An example prints a line for each step. The file `stdout` has the expected output.
#![tactic(auto)]

mod bytes_to_text;
mod car_in_memory;
mod own_codec;
mod own_source;
mod own_type;
mod texts;
mod trees;
mod untrusted_links;

fn main(rt: HostRuntime) -> anyhow::Result<()> {
    bytes_to_text::show(&rt, rt.alloc())?;
    texts::show(&rt, rt.alloc())?;
    trees::show(&rt, rt.alloc())?;
    own_type::show(&rt, rt.alloc())?;
    own_codec::show(&rt, rt.alloc())?;
    own_source::show(&rt, rt.alloc())?;
    untrusted_links::show(&rt, rt.alloc())?;
    car_in_memory::show(&rt, rt.alloc())
}

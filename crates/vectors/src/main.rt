// vectors: runs published tables and worked cases through the library, and prints what it answers.

#![tactic(auto)]

mod board;
mod built;
mod cells;
mod checks;
mod drawn;
mod fields;
mod lines;
mod operands;
mod passing;
mod places;
mod shapes;
mod source;
mod terms;
mod trial;

fn print_fields(rt: &HostRuntime) -> anyhow::Result<()> {
    fields::print_fields(rt)?;
    operands::print_pairs(rt)?;
    operands::print_degrees(rt)?;
    operands::print_differences(rt)
}

fn print_arrays(rt: &HostRuntime) -> anyhow::Result<()> {
    cells::print_fills(rt)?;
    cells::print_rows(rt)?;
    shapes::print_shapes(rt)?;
    places::print_places(rt)
}

fn print_checks(rt: &HostRuntime) -> anyhow::Result<()> {
    checks::print_small(rt)?;
    checks::print_refusals(rt)?;
    drawn::print_drawn(rt)?;
    built::print_built(rt)
}

fn main(rt: HostRuntime) -> anyhow::Result<()> {
    print_fields(&rt)?;
    print_arrays(&rt)?;
    print_checks(&rt)
}

// The program strip: the listing of document 01's order of 120 bytes and a book.

#![tactic(auto)]

fn main(rt: HostRuntime) {
    strip_lines::strip(&rt, strip_order::Form::Plain);
}

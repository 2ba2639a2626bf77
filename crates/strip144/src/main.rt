// The program strip144: the listing of an order of 144 bytes, with J, A and K (02, R-7), and a book.

#![tactic(auto)]

fn main(rt: HostRuntime) {
    strip_lines::strip(&rt, strip_order::Form::Whole);
}

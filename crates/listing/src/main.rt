// The printing program of document 01, case 15: reads a packed property and then records from standard input, up to the end
// record and no further, and writes their listing to standard output.
#![tactic(auto)]

fn main(rt: HostRuntime) {
    let mut input = rt.stdin();
    let mut out = rt.stdout();
    listing_shell::list(&mut input, &mut out, listing_shell::Form::Record);
}

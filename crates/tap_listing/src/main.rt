// The printing program for the tap card of document 02, CR 4: reads a packed property and then the card's records from standard
// input, up to the end record and no further, and writes their listing to standard output.
#![tactic(auto)]

fn main(rt: HostRuntime) {
    let mut input = rt.stdin();
    let mut out = rt.stdout();
    listing_shell::list(&mut input, &mut out, listing_shell::Form::Tap);
}

// The office program: reads claim and ask lines, and writes the answers.
#![tactic(auto)]

fn main(rt: HostRuntime) {
    office_stream::office(&mut rt.stdin(), &mut rt.stdout());
}

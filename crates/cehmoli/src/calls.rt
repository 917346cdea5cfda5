// The calls on two records, and the session.
ghost use Rattle.std.specs.Prelude.{◌≤◌, length, ◌≢◌};
ghost use Rattle.number.specs.Faults.{no_room};
ghost use Rattle.record.specs.Records.{literals};
ghost use Rattle.session.specs.Answers.{OneText, Fits, UnderLaw};
ghost use Rattle.witness.specs.Witness.{too_few_entries};
ghost use Rattle.cehmoli.specs.Answers.{refused};
ghost use Rattle.cehmoli.specs.Calls.{CoversCall, WitnessCall, JoinAnswer, JoinCall, SessionAnswer, Settled};

use super::answers::Answer;
use super::inputs::Both;
use class::Kind;
use record::Record;
use session::session;
use witness::witness;

// Takes the records of the entries of `input` into a class, and tells in `out` what happened and the rule.
#[unsafe(no_mangle)]
pub extern "C" fn cehmoli_session(input: &[u8], out: &mut [u8]) -> Answer
    ensures answers { SessionAnswer input.now result out.old out.new }
    ensures one { OneText input.now }
    ensures fits { Fits input.now }
    ensures law { UnderLaw input.now }
{
    match session(input, out) {
        Ok(length) => Answer::answered(length),
        Err(refusal) => Answer::refused(refusal.question()),
    }
}

// Whether the rule covers the mount.
#[unsafe(no_mangle)]
pub extern "C" fn cehmoli_covers(rule: &[u8], mount: &[u8]) -> Answer
    ensures { CoversCall rule.now mount.now result }
{
    let mut both = Both::new();
    match both.read(rule, mount) {
        Ok(()) => {
            if both.first.covers(&both.second) {
                Answer::answered(1)
            } else {
                Answer::none()
            }
        }
        Err(unread) => unread.answer(),
    }
}

// Why the rule covers the mount: for each variable of the rule the node of the mount where it is met.
#[tactic(auto, using(crate::proofs::Settling::witness_settled))]
#[unsafe(no_mangle)]
pub extern "C" fn cehmoli_witness(rule: &[u8], mount: &[u8], list: &mut [u16]) -> Answer
    ensures answers { WitnessCall rule.now mount.now list.old result list.new }
    ensures one { Settled (WitnessCall rule.now mount.now list.old) }
    ensures enough { 256 ≤ length list.old → result ≢ refused too_few_entries }
{
    let mut both = Both::new();
    match both.read(rule, mount) {
        Ok(()) => match witness(&both.first, &both.second, list) {
            Ok(Some(count)) => Answer::answered(count),
            Ok(None) => Answer::none(),
            Err(refusal) => Answer::refused(refusal.question()),
        },
        Err(unread) => unread.answer(),
    }
}

// The join of two records, in its packed form at the start of `out`.
#[tactic(auto, using(crate::proofs::Settling::join_settled))]
#[unsafe(no_mangle)]
pub extern "C" fn cehmoli_join(first: &[u8], second: &[u8], out: &mut [u8]) -> Answer
    ensures answers { JoinCall first.now second.now out.old result out.new }
    ensures one { Settled (JoinCall first.now second.now out.old) }
    ensures enough { 1539 ≤ length out.old → result ≢ refused no_room }
{
    let mut both = Both::new();
    match both.read(first, second) {
        Ok(()) => put_join(both.first, &both.second, out),
        Err(unread) => unread.answer(),
    }
}

// The same of two records.
fn put_join(mut first: Record, second: &Record, out: &mut [u8]) -> Answer
    ensures answers { JoinAnswer (literals first) (literals second.now) result out.old out.new }
    ensures enough { 1539 ≤ length out.old → result ≢ refused no_room }
{
    if let Err(refusal) = first.join(second) {
        return Answer::refused(refusal.number);
    }
    match first.write(out) {
        Ok(length) => Answer::answered(length),
        Err(refusal) => Answer::refused(refusal.question()),
    }
}

// Examples of every layer: some are theorems of the definitions, in one list, and the others are run as tests.
#![tactic(auto)]

ghost use Rattle.std.specs.Prelude.{◌≤◌};
ghost use Rattle.examples.specs.Examples.{examples, Hold};

// The list of proved examples.
pub fn examples_hold()
    ensures { Hold examples }
{}

#[cfg(test)]
mod tests {
    use bounded::{Bounded, Full};
    use class::{Class, Kind, Refusal};
    use number::{NoRoom, NumberFault};
    use place::PlaceWord;
    use record::Record;
    use std::process::Abort;
    use std::test::Fail;
    use witness::{TooFewEntries, first_choice, witness};
    use word::Layer;

    // A number and its form.
    const FORMS: [(u16, &[u8]); 7] = [
        (0, &[0]),
        (127, &[127]),
        (128, &[128, 1]),
        (16_383, &[255, 127]),
        (16_384, &[128, 128, 1]),
        (32_768, &[128, 128, 2]),
        (65_535, &[255, 255, 3]),
    ];

    #[test]
    fn forms_are_read(rt: HostRuntime) {
        for (value, form) in FORMS {
            assert_eq!(rt; number::read(form, 0), Ok((value, form.len())));
            assert_eq!(rt; number::form_length(value), form.len());
        }
    }

    #[test]
    fn a_place_and_what_follows_do_not_matter(rt: HostRuntime) {
        assert_eq!(rt; number::read(&[7, 255, 255, 3, 9], 1), Ok((65_535, 4)));
        assert_eq!(rt; number::read(&[7, 128, 1, 0], 1), Ok((128, 3)));
    }

    #[test]
    fn faults_tell_question_and_byte(rt: HostRuntime) -> Result<(), Fail> {
        faulty(&rt, &[], 0, 1, 0)?;
        faulty(&rt, &[128], 0, 1, 1)?;
        faulty(&rt, &[5, 255, 255], 1, 1, 3)?;
        faulty(&rt, &[5], 9, 1, 1)?;
        faulty(&rt, &[128, 128, 4], 0, 2, 0)?;
        faulty(&rt, &[5, 5, 255, 255, 131], 2, 2, 2)?;
        faulty(&rt, &[128, 0], 0, 3, 0)?;
        faulty(&rt, &[5, 255, 128, 0], 1, 3, 1)
    }

    fn faulty(
        rt: &impl Abort,
        input: &[u8],
        at: usize,
        question: u8,
        byte: usize,
    ) -> Result<(), Fail> {
        match number::read(input, at) {
            Ok(_) => Err(Fail::new("a number was read")),
            Err(fault) => {
                assert_eq!(rt; fault.question(), question);
                assert_eq!(rt; fault.byte(), byte);
                Ok(())
            }
        }
    }

    #[test]
    fn numbers_are_written_in_place(rt: HostRuntime) {
        let mut out = [9u8; 5];
        assert_eq!(rt; number::write(&mut out, 1, 65_535), Ok(4));
        assert_eq!(rt; out, [9, 255, 255, 3, 9]);
        assert_eq!(rt; number::write(&mut out, 4, 127), Ok(5));
        assert_eq!(rt; out, [9, 255, 255, 3, 127]);
    }

    #[test]
    fn a_short_buffer_is_left_alone(rt: HostRuntime) {
        let mut out = [9u8; 3];
        assert_eq!(rt; number::write(&mut out, 1, 16_384), Err(NoRoom));
        assert_eq!(rt; number::write(&mut out, 3, 0), Err(NoRoom));
        assert_eq!(rt; number::write(&mut out, 7, 0), Err(NoRoom));
        assert_eq!(rt; NoRoom.question(), 10);
        assert_eq!(rt; out, [9; 3]);
    }

    #[test]
    fn a_list_holds_its_bound(rt: HostRuntime) {
        let mut list: Bounded<u8, 2> = Bounded::new(0);
        assert_eq!(rt; list.push(5), Ok(()));
        assert_eq!(rt; list.push(6), Ok(()));
        assert_eq!(rt; list.push(7), Err(Full));
        assert_eq!(rt; list.as_slice(), [5, 6].as_slice());
        assert!(rt; list.set(1, 8));
        assert!(rt; !list.set(2, 9));
        assert_eq!(rt; list.get(1), Some(8));
        assert_eq!(rt; list.get(2), None);
        list.truncate(1);
        list.truncate(4);
        assert_eq!(rt; list.len(), 1);
        assert_eq!(rt; list.get(1), None);
    }

    #[test]
    fn a_listing_ends_with_the_count(rt: HostRuntime) -> Result<(), Fail> {
        let listing = listing::list_numbers(rt.alloc(), &[255, 255, 3, 0])?;
        assert_eq!(rt;
            listing.text.as_str(),
            "at 0: 65535\nat 3: 0\nnumbers read: 2\n"
        );
        assert_eq!(rt; listing.fault, None);
        Ok(())
    }

    #[test]
    fn a_listing_ends_with_the_fault(rt: HostRuntime) -> Result<(), Fail> {
        let cut = listing::list_numbers(rt.alloc(), &[1, 128])?;
        assert_eq!(rt;
            cut.text.as_str(),
            "at 0: 1\nfault 1 at byte 2: the input ends within a number\n"
        );
        let large = listing::list_numbers(rt.alloc(), &[128, 128, 4])?;
        assert_eq!(rt;
            large.text.as_str(),
            "fault 2 at byte 0: the third byte of a number is not below 4\n"
        );
        let padded = listing::list_numbers(rt.alloc(), &[0, 128, 0, 1])?;
        assert_eq!(rt;
            padded.text.as_str(),
            "at 0: 0\nfault 3 at byte 1: the last byte of a number of several bytes is 0\n"
        );
        assert_eq!(rt; padded.fault, Some(NumberFault::Padded { first: 1 }));
        Ok(())
    }

    // Packed place words: f5(a1, a1), f5(a2, a2), f5(a1, a2) and f5(a2, a1).
    const F11: [u8; 6] = [11, 2, 3, 0, 3, 0];

    const F22: [u8; 6] = [11, 2, 5, 0, 5, 0];

    const F12: [u8; 6] = [11, 2, 3, 0, 5, 0];

    const F21: [u8; 6] = [11, 2, 5, 0, 3, 0];

    fn read_place(input: &[u8]) -> Result<PlaceWord, Fail> {
        let mut place = PlaceWord::new();
        place.read(input)?;
        Ok(place)
    }

    fn read_record(input: &[u8]) -> Result<Record, Fail> {
        let mut record = Record::new();
        record.read(input)?;
        Ok(record)
    }

    // Beside it `lists_record` is the same of a record: one function over both would make each of their calls longer.
    fn lists(rt: &(impl Abort + AllocGlobal), input: &[u8], text: &str) -> Result<(), Fail> {
        let listing = listing::list_place(rt.alloc(), input)?;
        assert_eq!(rt; listing.text.as_str(), text);
        Ok(())
    }

    #[test]
    fn place_words_are_listed(rt: HostRuntime) -> Result<(), Fail> {
        lists(&rt, &[0], "X0\n")?;
        lists(&rt, &[15, 0], "a7\n")?;
        lists(&rt, &[11, 2, 0, 15, 0], "f5(X0, a7)\n")?;
        lists(&rt, &[11, 3, 0, 7, 1, 2, 0], "f5(X0, f3(X1), X0)\n")
    }

    #[test]
    fn place_faults_are_listed(rt: HostRuntime) -> Result<(), Fail> {
        lists(
            &rt,
            &[],
            "fault 1 at byte 0 in number, word, place word: the input ends within a number\n",
        )?;
        lists(
            &rt,
            &[1, 9],
            "fault 5 at byte 1 in word, place word: a symbol has more than 8 places\n",
        )?;
        lists(
            &rt,
            &[2],
            "fault 7 at byte 0 in word, place word: a variable is not the next unused one\n",
        )?;
        lists(
            &rt,
            &[0, 0],
            "fault 9 at byte 1 in place word: bytes are left over\n",
        )?;
        let mut deep = [1u8; 129];
        deep[128] = 0;
        lists(
            &rt,
            &deep,
            "fault 6 at byte 128 in word, place word: the word has more than 64 nodes\n",
        )
    }

    #[test]
    fn a_place_word_is_written_as_it_was_read(rt: HostRuntime) -> Result<(), Fail> {
        let place = read_place(&F12)?;
        let mut out = [9u8; 8];
        assert_eq!(rt; place.write(&mut out), Ok(6));
        assert_eq!(rt; out, [11, 2, 3, 0, 5, 0, 9, 9]);
        let mut short = [9u8; 5];
        assert_eq!(rt; place.write(&mut short), Err(NoRoom));
        assert_eq!(rt; short, [9; 5]);
        Ok(())
    }

    // What is told of an input that is no record: question, byte, literal in hand, layers.
    fn refused(
        rt: &impl Abort,
        input: &[u8],
        question: u8,
        byte: usize,
        literal: Option<usize>,
        layers: &[Layer],
    ) -> Result<(), Fail> {
        let mut record = Record::new();
        match record.read(input) {
            Ok(()) => Err(Fail::new("a record was read")),
            Err(fault) => {
                assert_eq!(rt; fault.question(), question);
                assert_eq!(rt; fault.byte(), byte);
                assert_eq!(rt; fault.literal(), literal);
                assert_eq!(rt; fault.layers(), layers);
                assert_eq!(rt; record.nodes().len(), 0);
                Ok(())
            }
        }
    }

    #[test]
    fn record_faults_tell_all(rt: HostRuntime) -> Result<(), Fail> {
        let number = &[Layer::Number, Layer::Record];
        let in_literal = &[Layer::Literal, Layer::Record];
        let in_word = &[Layer::Word, Layer::Literal, Layer::Record];
        refused(&rt, &[], 1, 0, None, number)?;
        refused(&rt, &[128, 0], 3, 0, None, number)?;
        refused(&rt, &[17], 4, 0, None, &[Layer::Record])?;
        refused(
            &rt,
            &[1],
            1,
            1,
            Some(0),
            &[Layer::Number, Layer::Literal, Layer::Record],
        )?;
        refused(
            &rt,
            &[2, 2, 0, 4, 1, 255],
            1,
            6,
            Some(1),
            &[Layer::Number, Layer::Word, Layer::Literal, Layer::Record],
        )?;
        refused(&rt, &[1, 2, 9], 5, 2, Some(0), in_literal)?;
        refused(&rt, &[1, 2, 1, 3, 9], 5, 4, Some(0), in_word)?;
        refused(&rt, &[1, 3, 1, 2], 7, 3, Some(0), in_word)?;
        refused(&rt, &[2, 2, 0, 2, 0], 8, 3, Some(1), in_literal)?;
        refused(&rt, &[0, 0], 9, 1, None, &[Layer::Record])
    }

    #[test]
    fn a_record_has_256_nodes_at_most(rt: HostRuntime) -> Result<(), Fail> {
        // p1 over 255 nested symbols: the last of them is a constant
        let mut deep = [1u8; 513];
        deep[1] = 2;
        deep[512] = 0;
        let record = read_record(&deep)?;
        assert_eq!(rt; record.nodes().len(), 256);
        let mut long = [1u8; 515];
        long[1] = 2;
        long[514] = 0;
        refused(
            &rt,
            &long,
            6,
            513,
            Some(0),
            &[Layer::Word, Layer::Literal, Layer::Record],
        )?;
        // and a second literal after them
        let mut two = [1u8; 515];
        two[0] = 2;
        two[1] = 2;
        two[512] = 0;
        two[513] = 4;
        two[514] = 0;
        refused(&rt, &two, 6, 513, Some(1), &[Layer::Literal, Layer::Record])
    }

    #[test]
    fn records_are_listed(rt: HostRuntime) -> Result<(), Fail> {
        lists_record(&rt, &[0], "{}\n")?;
        lists_record(&rt, &[2, 2, 1, 0, 5, 1, 7, 0], "{p1(X0), -q2(a3)}\n")?;
        lists_record(&rt, &[2, 8, 0, 6, 2, 0, 2], "{s4, r3(X0, X1)}\n")?;
        lists_record(
            &rt,
            &[1, 3, 1, 2],
            "fault 7 at byte 3 of literal 0 in word, literal, record: a variable is not the next unused one\n",
        )?;
        lists_record(&rt, &[3, 2, 0, 3, 0, 2, 1, 0], "{p1, -p1, p1(X0)}\n")?;
        lists_record(
            &rt,
            &[17],
            "fault 4 at byte 0 in record: there are more than 16 literals\n",
        )?;
        lists_record(
            &rt,
            &[2, 2, 0, 2, 0],
            "fault 8 at byte 3 of literal 1 in literal, record: the literal repeats an earlier one\n",
        )
    }

    fn lists_record(rt: &(impl Abort + AllocGlobal), input: &[u8], text: &str) -> Result<(), Fail> {
        let listing = listing::list_record(rt.alloc(), input)?;
        assert_eq!(rt; listing.text.as_str(), text);
        Ok(())
    }

    #[test]
    fn a_record_is_written_as_it_was_read(rt: HostRuntime) -> Result<(), Fail> {
        let mut record = read_record(&[2, 2, 1, 0, 5, 1, 7, 0])?;
        let mut out = [9u8; 9];
        assert_eq!(rt; record.write(&mut out), Ok(8));
        assert_eq!(rt; out, [2, 2, 1, 0, 5, 1, 7, 0, 9]);
        let mut short = [9u8; 7];
        assert_eq!(rt; record.write(&mut short), Err(NoRoom));
        assert_eq!(rt; short, [9; 7]);
        assert!(rt; record.read(&[2, 2, 0, 2, 0]).is_err());
        assert_eq!(rt; record.write(&mut out), Ok(8));
        assert_eq!(rt; out, [2, 2, 1, 0, 5, 1, 7, 0, 9]);
        Ok(())
    }

    #[test]
    fn place_words_cover_and_join(rt: HostRuntime) -> Result<(), Fail> {
        let mut rule = read_place(&F11)?;
        assert!(rt; !rule.covers(&read_place(&F22)?));
        rule.join(&read_place(&F22)?)?;
        assert_eq!(rt;
            listing::show_place(rt.alloc(), &rule)?.as_str(),
            "f5(X0, X0)"
        );
        assert!(rt; rule.covers(&read_place(&F22)?));
        assert!(rt; !rule.covers(&read_place(&F12)?));
        let mut pair = read_place(&F12)?;
        pair.join(&read_place(&F21)?)?;
        assert_eq!(rt;
            listing::show_place(rt.alloc(), &pair)?.as_str(),
            "f5(X0, X1)"
        );
        Ok(())
    }

    #[test]
    fn a_class_gathers_place_words(rt: HostRuntime) -> Result<(), Fail> {
        let mut class = Class::begin(read_place(&F11)?);
        class.admit(&read_place(&F22)?)?;
        assert!(rt; !class.fits(&read_place(&F12)?));
        class.admit(&read_place(&F21)?)?;
        let issued = class.issue();
        assert!(rt; issued.fits(&read_place(&F12)?));
        assert_eq!(rt; issued.count(), 3);
        let (rule, _) = issued.into_parts();
        assert_eq!(rt;
            listing::show_place(rt.alloc(), &rule)?.as_str(),
            "f5(X0, X1)"
        );
        Ok(())
    }

    // Packed records: {p1(X0), q2(X0)}, and {p1(a2), p1(a1), q2(a1)}, which it covers, and {p1(a2), q2(a1)}, which it does not.
    const BOTH: [u8; 7] = [2, 2, 1, 0, 4, 1, 0];

    const MET: [u8; 13] = [3, 2, 1, 5, 0, 2, 1, 3, 0, 4, 1, 3, 0];

    const MISSED: [u8; 9] = [2, 2, 1, 5, 0, 4, 1, 3, 0];

    // {p1(X0, X1), p1(X1, X2), p1(X2, X0)}, and a round of two before a round of three: {p1(a1, a2), p1(a2, a1), p1(a3, a4),
    // p1(a4, a5), p1(a5, a3)}.
    const ROUND: [u8; 13] = [3, 2, 2, 0, 2, 2, 2, 2, 4, 2, 2, 4, 0];

    const ROUNDS: [u8; 31] = [
        5, 2, 2, 3, 0, 5, 0, 2, 2, 5, 0, 3, 0, 2, 2, 7, 0, 9, 0, 2, 2, 9, 0, 11, 0, 2, 2, 11, 0, 7,
        0,
    ];

    // {p1(X0)}, {p1(a1)} and {p1(X0, X1)}.
    const ANY: [u8; 4] = [1, 2, 1, 0];

    const ONE: [u8; 5] = [1, 2, 1, 3, 0];

    const PAIR: [u8; 5] = [1, 2, 2, 0, 2];

    // Of a rule and a mount, whether it is covered.
    fn covered(rt: &impl Abort, cases: &[(&[u8], &[u8], bool)]) -> Result<(), Fail> {
        for (rule, mount, answer) in cases {
            assert_eq!(rt;
                read_record(rule)?.covers(&read_record(mount)?),
                *answer,
                "{rule:?} over {mount:?}"
            );
        }
        Ok(())
    }

    #[test]
    fn records_cover(rt: HostRuntime) -> Result<(), Fail> {
        covered(
            &rt,
            &[
                (&ANY, &ONE, true),
                (&ONE, &ANY, false),
                (&BOTH, &MET, true),
                (&BOTH, &MISSED, false),
                // the empty record
                (&[0], &[0], true),
                (&[0], &ONE, true),
                (&ANY, &[0], false),
                // {p1(X0), p1(X1)} over {p1(a1)}
                (&[2, 2, 1, 0, 2, 1, 2], &ONE, true),
                // two are one only where they are the same: {p1(X0, X0)} over {p1(a1, a2)}
                (&[1, 2, 2, 0, 0], &[1, 2, 2, 3, 0, 5, 0], false),
                // a round of three in a round of two, and beside it
                (&ROUND, &[2, 2, 2, 3, 0, 5, 0, 2, 2, 5, 0, 3, 0], false),
                (&ROUND, &ROUNDS, true),
            ],
        )
    }

    #[test]
    fn variables_of_both_sides_are_apart(rt: HostRuntime) -> Result<(), Fail> {
        covered(
            &rt,
            &[
                // {p1(X0)} over {p1(f6(X0))}
                (&ANY, &[1, 2, 1, 13, 1, 0], true),
                // {p1(X0, f6(X1))} over {p1(f6(X0), f6(f6(X0)))}
                (
                    &[1, 2, 2, 0, 13, 1, 2],
                    &[1, 2, 2, 13, 1, 0, 13, 1, 13, 1, 0],
                    true,
                ),
                // {p1(X0), -p1(f6(X0))} over {p1(X0), -p1(f6(f6(X0)))}
                (
                    &[2, 2, 1, 0, 3, 1, 13, 1, 0],
                    &[2, 2, 1, 0, 3, 1, 13, 1, 13, 1, 0],
                    false,
                ),
                // the mount's are not bound: {p1(X0, X0)} over {p1(X0, X1)}
                (&[1, 2, 2, 0, 0], &PAIR, false),
            ],
        )
    }

    #[test]
    fn sign_and_count_of_places_matter(rt: HostRuntime) -> Result<(), Fail> {
        covered(
            &rt,
            &[
                // -p1(X0) and p1(a1)
                (&[1, 3, 1, 0], &ONE, false),
                (&[1, 3, 1, 0], &[1, 3, 1, 3, 0], true),
                // p1 and p1(a1), p1(X0, X1) and p1(a1)
                (&[1, 2, 0], &ONE, false),
                (&PAIR, &ONE, false),
                // q2(X0) and p1(a1)
                (&[1, 4, 1, 0], &ONE, false),
                // p1(f1(X0)) and p1(a1), p1(f1(a1, a1))
                (&[1, 2, 1, 3, 1, 0], &ONE, false),
                (&[1, 2, 1, 3, 1, 0], &[1, 2, 1, 3, 2, 3, 0, 3, 0], false),
            ],
        )
    }

    // What a list of 9s then holds, beside the answer.
    fn witnessed(
        rt: &impl Abort,
        rule: &[u8],
        mount: &[u8],
        answer: Option<usize>,
        entries: [u16; 4],
    ) -> Result<(), Fail> {
        let mut list = [9; 4];
        assert_eq!(rt;
            witness(&read_record(rule)?, &read_record(mount)?, &mut list),
            Ok(answer)
        );
        assert_eq!(rt; list, entries);
        Ok(())
    }

    #[test]
    fn a_witness_tells_nodes(rt: HostRuntime) -> Result<(), Fail> {
        witnessed(&rt, &BOTH, &MET, Some(1), [3, 9, 9, 9])?;
        witnessed(&rt, &BOTH, &MISSED, None, [9; 4])?;
        // the round of two has to be given up
        witnessed(&rt, &ROUND, &ROUNDS, Some(3), [7, 8, 11, 9])?;
        // {p1(X0, X1)} in {p1(f6(a1), a2)}
        witnessed(
            &rt,
            &PAIR,
            &[1, 2, 2, 13, 1, 3, 0, 5, 0],
            Some(2),
            [1, 3, 9, 9],
        )?;
        witnessed(&rt, &ONE, &ONE, Some(0), [9; 4])?;
        witnessed(&rt, &[0], &[0], Some(0), [9; 4])
    }

    #[test]
    fn a_short_list_is_refused(rt: HostRuntime) -> Result<(), Fail> {
        let pair = read_record(&PAIR)?;
        let mut list = [9; 1];
        assert_eq!(rt; witness(&pair, &pair, &mut list), Err(TooFewEntries));
        // before the search
        assert_eq!(rt;
            witness(&pair, &read_record(&ONE)?, &mut list),
            Err(TooFewEntries)
        );
        assert_eq!(rt; list, [9]);
        assert_eq!(rt; TooFewEntries.question(), 12);
        let mut enough = [9; 2];
        assert_eq!(rt; witness(&pair, &pair, &mut enough), Ok(Some(2)));
        assert_eq!(rt; enough, [1, 2]);
        Ok(())
    }

    fn chosen(
        rt: &impl Abort,
        rule: &[u8],
        mount: &[u8],
        choice: Option<&[u16]>,
    ) -> Result<(), Fail> {
        let first = first_choice(&read_record(rule)?, &read_record(mount)?);
        assert_eq!(rt; first.as_ref().map(|first| first.as_slice()), choice);
        Ok(())
    }

    #[test]
    fn the_first_choice_counts(rt: HostRuntime) -> Result<(), Fail> {
        chosen(&rt, &BOTH, &MET, Some(&[1, 2]))?;
        chosen(&rt, &BOTH, &MISSED, None)?;
        chosen(&rt, &ROUND, &ROUNDS, Some(&[2, 3, 4]))?;
        // {p1(X0), p1(X1)} and {p1(a2), p1(a1), q2(a1)}
        chosen(&rt, &[2, 2, 1, 0, 2, 1, 2], &MET, Some(&[0, 0]))?;
        chosen(&rt, &[0], &MET, Some(&[]))
    }

    #[test]
    fn covering_is_explained(rt: HostRuntime) -> Result<(), Fail> {
        let rule = read_record(&BOTH)?;
        let covered = listing::explain(rt.alloc(), &rule, &read_record(&MET)?)?;
        assert_eq!(rt;
            covered.as_str(),
            "rule {p1(X0), q2(X0)}\nmount {p1(a2), p1(a1), q2(a1)}\ncovered\nX0 is a1 at node 3\np1(X0) becomes p1(a1)\nq2(X0) becomes q2(a1)\n"
        );
        let missed = listing::explain(rt.alloc(), &rule, &read_record(&MISSED)?)?;
        assert_eq!(rt;
            missed.as_str(),
            "rule {p1(X0), q2(X0)}\nmount {p1(a2), q2(a1)}\nnot covered\n"
        );
        Ok(())
    }

    #[test]
    fn packed_records_are_explained(rt: HostRuntime) -> Result<(), Fail> {
        lists_covering(
            &rt,
            &PAIR,
            &[1, 2, 2, 13, 1, 3, 0, 5, 0],
            "rule {p1(X0, X1)}\nmount {p1(f6(a1), a2)}\ncovered\nX0 is f6(a1) at node 1\nX1 is a2 at node 3\np1(X0, X1) becomes p1(f6(a1), a2)\n",
            None,
        )?;
        lists_covering(&rt, &[0], &[0], "rule {}\nmount {}\ncovered\n", None)?;
        lists_covering(
            &rt,
            &ANY,
            &[0],
            "rule {p1(X0)}\nmount {}\nnot covered\n",
            None,
        )?;
        lists_covering(
            &rt,
            &[17],
            &[0, 0],
            "rule: fault 4 at byte 0 in record: there are more than 16 literals\n",
            Some(4),
        )?;
        lists_covering(
            &rt,
            &[0],
            &[1, 3, 1, 2],
            "mount: fault 7 at byte 3 of literal 0 in word, literal, record: a variable is not the next unused one\n",
            Some(7),
        )
    }

    fn lists_covering(
        rt: &(impl Abort + AllocGlobal),
        rule: &[u8],
        mount: &[u8],
        text: &str,
        question: Option<u8>,
    ) -> Result<(), Fail> {
        let listing = listing::list_covering(rt.alloc(), rule, mount)?;
        assert_eq!(rt; listing.text.as_str(), text);
        assert_eq!(rt; listing.fault.map(|fault| fault.question()), question);
        Ok(())
    }

    // What a record is in legible form.
    fn shows(rt: &(impl Abort + AllocGlobal), record: &Record, text: &str) -> Result<(), Fail> {
        assert_eq!(rt; listing::show_record(rt.alloc(), record)?.as_str(), text);
        Ok(())
    }

    fn tidies(rt: &(impl Abort + AllocGlobal), input: &[u8], text: &str) -> Result<(), Fail> {
        let mut record = read_record(input)?;
        record.tidy();
        shows(rt, &record, text)
    }

    #[test]
    fn records_are_tidied(rt: HostRuntime) -> Result<(), Fail> {
        // {p1(X0), p1(a1)}, {p1(X0), p1(X1)} and {p1(X0, a1), p1(a1, X0)}
        tidies(&rt, &[2, 2, 1, 0, 2, 1, 3, 0], "{p1(a1)}")?;
        tidies(&rt, &[2, 2, 1, 0, 2, 1, 2], "{p1(X0)}")?;
        tidies(
            &rt,
            &[2, 2, 2, 0, 3, 0, 2, 2, 3, 0, 0],
            "{p1(X0, a1), p1(a1, X0)}",
        )?;
        tidies(&rt, &[0], "{}")
    }

    fn joins(
        rt: &(impl Abort + AllocGlobal),
        first: &[u8],
        second: &[u8],
        text: &str,
    ) -> Result<(), Fail> {
        let mut record = read_record(first)?;
        record.join(&read_record(second)?)?;
        shows(rt, &record, text)
    }

    #[test]
    fn records_are_joined(rt: HostRuntime) -> Result<(), Fail> {
        // {p1(f5(a1), f5(X0)), p1(f5(X0), f6(a1)), q2(a1)} and {p1(f5(a2), X0), p1(X1, f6(a2))}
        joins(
            &rt,
            &[
                3, 2, 2, 11, 1, 3, 0, 11, 1, 0, 2, 2, 11, 1, 0, 13, 1, 3, 0, 4, 1, 3, 0,
            ],
            &[2, 2, 2, 11, 1, 5, 0, 0, 2, 2, 2, 13, 1, 5, 0],
            "{p1(f5(X0), X1), p1(X2, f6(X0))}",
        )?;
        // {q2(X0), p1(a1)} and {r3(a2), s4(f5(a1))}
        joins(
            &rt,
            &[2, 4, 1, 0, 2, 1, 3, 0],
            &[2, 6, 1, 5, 0, 8, 1, 11, 1, 3, 0],
            "{}",
        )
    }

    // A ring: p1 round `count` constants, which are numbered from `first` on.
    fn ring(count: u8, first: u8) -> Result<Record, Fail>
        requires { (count ≤ 16) × (first ≤ 32) }
    {
        let mut packed: Bounded<u8, 97> = Bounded::new(0);
        packed.push(count)?;
        for k in 0..count {
            let next = if k + 1 == count { 0 } else { k + 1 };
            for byte in [2, 2, 2 * (first + k) + 1, 0, 2 * (first + next) + 1, 0] {
                packed.push(byte)?;
            }
        }
        read_record(packed.as_slice())
    }

    // Two rings without a common constant join to so many literals.
    fn rings_join(rt: &impl Abort, one: u8, other: u8, literals: usize) -> Result<(), Fail>
        requires { (one ≤ 16) × (other ≤ 16) }
    {
        let left = ring(one, 1)?;
        let right = ring(other, 17)?;
        let mut joined = left;
        joined.join(&right)?;
        assert_eq!(rt; joined.starts().len(), literals);
        assert!(rt; joined.covers(&left));
        assert!(rt; joined.covers(&right));
        Ok(())
    }

    // Or the join is refused, and both are as they were.
    fn rings_are_refused(rt: &impl Abort, one: u8, other: u8) -> Result<(), Fail>
        requires { (one ≤ 16) × (other ≤ 16) }
    {
        let mut left = ring(one, 1)?;
        let right = ring(other, 17)?;
        let before = (written(&left)?, written(&right)?);
        assert_eq!(rt; left.join(&right), Err(Refusal { number: 11 }));
        assert_eq!(rt; written(&left)?, before.0);
        assert_eq!(rt; written(&right)?, before.1);
        Ok(())
    }

    // Its packed form, and 9s.
    fn written(record: &Record) -> Result<[u8; 97], Fail> {
        let mut out = [9; 97];
        record.write(&mut out)?;
        Ok(out)
    }

    #[test]
    fn rings_of_3_and_5_join(rt: HostRuntime) -> Result<(), Fail> {
        rings_join(&rt, 3, 5, 15)
    }

    #[test]
    fn rings_of_8_and_16_join(rt: HostRuntime) -> Result<(), Fail> {
        rings_join(&rt, 8, 16, 16)
    }

    #[test]
    fn rings_of_2_and_9_are_refused(rt: HostRuntime) -> Result<(), Fail> {
        rings_are_refused(&rt, 2, 9)
    }

    #[test]
    fn rings_of_16_and_15_are_refused(rt: HostRuntime) -> Result<(), Fail> {
        rings_are_refused(&rt, 16, 15)
    }

    #[test]
    fn a_class_gathers_records(rt: HostRuntime) -> Result<(), Fail> {
        // {p1(a1), p1(X0)}
        let mut class = generaliser::begin(read_record(&[2, 2, 1, 3, 0, 2, 1, 0])?);
        assert!(rt; class.fits(&read_record(&ONE)?));
        // {p1(a2)}
        let other = read_record(&[1, 2, 1, 5, 0])?;
        assert!(rt; !class.fits(&other));
        class.admit(&other)?;
        // covered by then
        class.admit(&read_record(&MET)?)?;
        let issued = class.issue();
        assert!(rt; issued.fits(&read_record(&MISSED)?));
        assert!(rt; !issued.fits(&read_record(&PAIR)?));
        assert_eq!(rt; issued.count(), 3);
        let (rule, _) = issued.into_parts();
        shows(&rt, &rule, "{p1(X0)}")
    }

    #[test]
    fn a_rejection_leaves_the_rule(rt: HostRuntime) -> Result<(), Fail> {
        let first = ring(2, 1)?;
        let mut class = generaliser::begin(first);
        let large = ring(9, 17)?;
        assert_eq!(rt; class.admit(&large), Err(Refusal { number: 11 }));
        assert!(rt; class.fits(&first));
        assert!(rt; !class.fits(&large));
        let (rule, count) = class.issue().into_parts();
        assert_eq!(rt; count, 1);
        assert_eq!(rt; written(&rule)?, written(&first)?);
        Ok(())
    }
}

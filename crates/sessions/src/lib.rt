// Sessions whose text is known, run as tests.
#![tactic(auto)]

#[cfg(test)]
mod tests {
    use session::{NoBuffer, session};
    use std::process::Abort;
    use std::test::Fail;

    // The session of an input: its text, and beyond it the buffer is as it was.
    fn tells(rt: &impl Abort, input: &[u8], text: &str) -> Result<(), Fail> {
        let mut out = [b'.'; 61_440];
        let end = session(input, &mut out)?;
        assert_eq!(*rt; end, text.len());
        assert_eq!(*rt;
            out.get(..end).ok_or("a text beyond the buffer")?,
            text.as_bytes()
        );
        assert!(*rt; out.iter().skip(end).all(|byte| *byte == b'.'));
        Ok(())
    }

    #[test]
    fn a_record_is_taken_and_an_entry_is_bad(rt: HostRuntime) -> Result<(), Fail> {
        // {p1(a3), q2(a3)}, {p1(a4), q2(a4)}, and a record of 17 literals
        let input = [
            9, 2, 2, 1, 7, 0, 4, 1, 7, 0, 9, 2, 2, 1, 9, 0, 4, 1, 9, 0, 1, 17,
        ];
        tells(
            &rt,
            &input,
            "begun\ntaken\nbad 4 at 21\nrule 02020100040100\n",
        )
    }

    #[test]
    fn faults_are_counted_from_the_start(rt: HostRuntime) -> Result<(), Fail> {
        tells(&rt, &[], "no rule\n")?;
        // an empty entry; one whose record ends early; the empty record with a byte left over
        tells(&rt, &[0], "bad 1 at 1\nno rule\n")?;
        tells(&rt, &[1, 1, 1, 0], "bad 1 at 2\nbegun\nrule 00\n")?;
        tells(&rt, &[2, 0, 0], "bad 9 at 2\nno rule\n")?;
        // a length that reaches beyond the input, and one that is no number, end the entries
        tells(&rt, &[1, 0, 5, 0], "begun\nbad 1 at 4\nrule 00\n")?;
        tells(&rt, &[1, 0, 128, 0, 1, 0], "begun\nbad 3 at 2\nrule 00\n")
    }

    #[test]
    fn a_join_beyond_the_limit_is_refused(rt: HostRuntime) -> Result<(), Fail> {
        // rings of 2 and 9: {p1(a1, a2), p1(a2, a1)}, and p1 around a17 to a25
        let mut input = [0; 70];
        input[0] = 13;
        input[1] = 2;
        input[14] = 55;
        input[15] = 9;
        for k in 0..2 {
            for (j, byte) in [2, 2, 2 * k + 3, 0, 5 - 2 * k, 0].iter().enumerate() {
                input[2 + 6 * k as usize + j] = *byte;
            }
        }
        for k in 0..9 {
            let next = if k == 8 { 0 } else { k + 1 };
            for (j, byte) in [2, 2, 2 * k + 35, 0, 2 * next + 35, 0].iter().enumerate() {
                input[16 + 6 * k as usize + j] = *byte;
            }
        }
        tells(
            &rt,
            &input,
            "begun\nrefused 11\nrule 02020203000500020205000300\n",
        )
    }

    #[test]
    fn buffer_and_input_are_asked_for(rt: HostRuntime) -> Result<(), Fail> {
        let mut short = [b'.'; 61_439];
        assert_eq!(rt; session(&[1, 0], &mut short), Err(NoBuffer));
        assert_eq!(rt; NoBuffer.question(), 13);
        assert!(rt; short.iter().all(|byte| *byte == b'.'));
        let zeros = [0; 4_097];
        tells(&rt, &zeros, "bad 14 at 4096\n")?;
        // the longest text: each byte is an entry
        let mut out = [b'.'; 61_440];
        let end = session(&zeros[..4_096], &mut out)?;
        assert_eq!(rt; end, 9 * 11 + 90 * 12 + 900 * 13 + 3_097 * 14 + 8);
        Ok(())
    }
}

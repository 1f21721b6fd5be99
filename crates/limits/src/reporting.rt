use deciding::report::report;
use std::alloc::Global;
use std::process::Abort;
use std::test::Fail;

// Whether each input gives its output.
fn prints(rt: &impl Abort, heap: Global, table: &[(&[u8], &str)]) -> Result<(), Fail> {
    for (input, output) in table {
        let text = report(heap, input)?;
        assert_eq!(rt; text.as_str(), *output);
    }
    Ok(())
}

#[test]
fn marks(rt: HostRuntime) -> Result<(), Fail> {
    let table: &[(&[u8], &str)] = &[
        (b"", "0 lines, 0 headers: 0 permit, 0 deny, 0 bad\n"),
        (b"=", "0 lines, 0 headers: 0 permit, 0 deny, 0 bad\n"),
        (
            b"access-list 1 permit any",
            "1 lines, 0 headers: 0 permit, 0 deny, 0 bad\n",
        ),
        (
            b"=\n0.0.0.0 0.0.0.0 0 0 0",
            "deny end\n0 lines, 1 headers: 0 permit, 1 deny, 0 bad\n",
        ),
        (
            b"!\r\n=\r\n0.0.0.0 0.0.0.0 0 0 0\r\n",
            "deny end\n0 lines, 1 headers: 0 permit, 1 deny, 0 bad\n",
        ),
        (b" =\n=\n", "refused 11 1 1\n"),
        (b"= \n=\n", "refused 11 1 0\n"),
        (b"=\r", "refused 11 1 0\n"),
        (
            b"!\n=\n=\n",
            "bad header 1 0\n0 lines, 1 headers: 0 permit, 0 deny, 1 bad\n",
        ),
    ];
    prints(&rt, rt.alloc(), table)
}

#[test]
fn malformed_headers(rt: HostRuntime) -> Result<(), Fail> {
    let table: &[(&[u8], &str)] = &[
        (
            b"=\n\n!\n1.2.3.4\n",
            "bad header 3 7\n0 lines, 1 headers: 0 permit, 0 deny, 1 bad\n",
        ),
        (
            b"=\n1.2.3.4 1.2.3.4 256 0 0\n",
            "bad header 1 16\n0 lines, 1 headers: 0 permit, 0 deny, 1 bad\n",
        ),
        (
            b"=\n1.2.3.4 1.2.3.4 255 65535 65536\n",
            "bad header 1 26\n0 lines, 1 headers: 0 permit, 0 deny, 1 bad\n",
        ),
        (
            b"=\n1.2.3.4 1.2.3.4 255 65535 65535 x\n",
            "bad header 1 32\n0 lines, 1 headers: 0 permit, 0 deny, 1 bad\n",
        ),
        (
            b"=\n1.2.3.4 1.2.3.4 255 65535 65535\n",
            "deny end\n0 lines, 1 headers: 0 permit, 1 deny, 0 bad\n",
        ),
    ];
    prints(&rt, rt.alloc(), table)
}

// A header part's text line has 256 bytes at the most, and one byte more is malformed there, whatever it says.
#[test]
fn long_headers(rt: HostRuntime) -> Result<(), Fail> {
    let heap = rt.alloc();
    let mut input = b"=\n0.0.0.0 0.0.0.0 0 0 0".to_vec(heap)?;
    input.extend_from_slice(&[b' '; 235])?;
    let good = "deny end\n0 lines, 1 headers: 0 permit, 1 deny, 0 bad\n";
    prints(&rt, heap, &[(&input, good)])?;
    input.push(b' ')?;
    let bad = "bad header 1 256\n0 lines, 1 headers: 0 permit, 0 deny, 1 bad\n";
    prints(&rt, heap, &[(&input, bad)])
}

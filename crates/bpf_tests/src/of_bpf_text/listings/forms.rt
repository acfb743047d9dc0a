//! Texts that are read but written otherwise: their lines as they are written, and the little-endian bytes.

use super::FormRow;

macro_rules! row {
    ($text:literal => $lines:literal, $bytes:literal) => {
        FormRow { text: $text, lines: $lines, bytes: $bytes }
    };
}

#[rattlefmt::skip]
pub(super) fn forms() -> [&'static [FormRow]; 5] {[&[
    row!(b"" => b"", b""),
    row!(b"exit" => b"exit\n", b"\x95\0\0\0\0\0\0\0"),
    row!(b"exit ;\xff" => b"exit\n", b"\x95\0\0\0\0\0\0\0"),
    row!(b"ldxw r1, [r2]" => b"ldxw r1, [r2+0]\n", b"\x61\x21\0\0\0\0\0\0"),
    row!(b"ja 5" => b"ja +5\n", b"\x05\0\x05\0\0\0\0\0"),
    row!(b"mov32 r3, -0x80000000" => b"mov32 r3, -2147483648\n", b"\xb4\x03\0\0\0\0\0\x80"),
    row!(b"lddw r1, 0xffffffffffffffff" => b"lddw r1, 18446744073709551615\n", b"\x18\x01\0\0\xff\xff\xff\xff\0\0\0\0\xff\xff\xff\xff"),
], &[
    row!(b"  mov r1 , 0x10 ; sixteen\n\n# none\nexit" => b"mov r1, 16\nexit\n", b"\xb7\x01\0\0\x10\0\0\0\x95\0\0\0\0\0\0\0"),
    row!(b"sdiv r1, 3\ncmpxchg [r1-8], r2\nexit\n" => b"sdiv r1, 3\ncmpxchg [r1-8], r2\nexit\n", b"\x37\x01\x01\0\x03\0\0\0\xdb\x21\xf8\xff\xf1\0\0\0\x95\0\0\0\0\0\0\0"),
    row!(b"mov r1,r2\nstb[r1+1],-1\n" => b"mov r1, r2\nstb [r1+1], -1\n", b"\xbf\x21\0\0\0\0\0\0\x72\x01\x01\0\xff\xff\xff\xff"),
    row!(b"\tmov \t r1 ,\rr2\r\nexit\r\n" => b"mov r1, r2\nexit\n", b"\xbf\x21\0\0\0\0\0\0\x95\0\0\0\0\0\0\0"),
    row!(b"\n \n\t\r\n;\n#\nexit\n\n" => b"exit\n", b"\x95\0\0\0\0\0\0\0"),
    row!(b"exit\nexit" => b"exit\nexit\n", b"\x95\0\0\0\0\0\0\0\x95\0\0\0\0\0\0\0"),
], &[
    row!(b"; nothing" => b"", b""),
    row!(b"# none\n\n" => b"", b""),
    row!(b"\n\n\n" => b"", b""),
    row!(b"exit # \xff\0; EXIT!\nexit;exit\n" => b"exit\nexit\n", b"\x95\0\0\0\0\0\0\0\x95\0\0\0\0\0\0\0"),
    row!(b"exit # \0" => b"exit\n", b"\x95\0\0\0\0\0\0\0"),
    row!(b"mov r1, 000000000000000000000000000016\n" => b"mov r1, 16\n", b"\xb7\x01\0\0\x10\0\0\0"),
    row!(b"mov r1, 0x0000000000000000000000ff\n" => b"mov r1, 255\n", b"\xb7\x01\0\0\xff\0\0\0"),
], &[
    row!(b"add r1, +5\nadd r1, - 5\n" => b"add r1, 5\nadd r1, -5\n", b"\x07\x01\0\0\x05\0\0\0\x07\x01\0\0\xfb\xff\xff\xff"),
    row!(b"mov r1, -0x80000000\n" => b"mov r1, -2147483648\n", b"\xb7\x01\0\0\0\0\0\x80"),
    row!(b"mov r1, -0\nlddw r1, -0\n" => b"mov r1, 0\nlddw r1, 0\n", b"\xb7\x01\0\0\0\0\0\0\x18\x01\0\0\0\0\0\0\0\0\0\0\0\0\0\0"),
    row!(b"ja 5\nja32 0x10\nja -0\n" => b"ja +5\nja32 +16\nja +0\n", b"\x05\0\x05\0\0\0\0\0\x06\0\0\0\x10\0\0\0\x05\0\0\0\0\0\0\0"),
    row!(b"jeq r1, 2, 3\njne32 r1,r2,- 3\n" => b"jeq r1, 2, +3\njne32 r1, r2, -3\n", b"\x15\x01\x03\0\x02\0\0\0\x5e\x21\xfd\xff\0\0\0\0"),
    row!(b"call +1\ncall_local 3\n" => b"call 1\ncall_local +3\n", b"\x85\0\0\0\x01\0\0\0\x85\x10\0\0\x03\0\0\0"),
], &[
    row!(b"ldxb r1, [r2]\ncmpxchg32 [r1], r2\n" => b"ldxb r1, [r2+0]\ncmpxchg32 [r1+0], r2\n", b"\x71\x21\0\0\0\0\0\0\xc3\x21\0\0\xf1\0\0\0"),
    row!(b"ldxb r1, [ r2 - 0x8 ]\n" => b"ldxb r1, [r2-8]\n", b"\x71\x21\xf8\xff\0\0\0\0"),
    row!(b"stxw [r2-0], r1\n" => b"stxw [r2+0], r1\n", b"\x63\x12\0\0\0\0\0\0"),
    row!(b"lddw r1, +0xffffffffffffffff\n" => b"lddw r1, 18446744073709551615\n", b"\x18\x01\0\0\xff\xff\xff\xff\0\0\0\0\xff\xff\xff\xff"),
    row!(b"lddw r1, 0x1122334455667788" => b"lddw r1, 1234605616436508552\n", b"\x18\x01\0\0\x88\x77\x66\x55\0\0\0\0\x44\x33\x22\x11"),
    row!(b"\tmov\tr1,+007\r\nstb[r1+ 0x7f]  ,-1\r" => b"mov r1, 7\nstb [r1+127], -1\n", b"\xb7\x01\0\0\x07\0\0\0\x72\x01\x7f\0\xff\xff\xff\xff"),
]]}

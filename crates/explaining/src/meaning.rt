//! What refusals mean, and what to do.

/// The meaning of a finding that is only possible.
pub const POSSIBLE: &str =
    "A possible finding says nothing of the kernel: it is what the search could not show, and a replay of the launch at the least values \
     did not come there.";

/// The meaning of such findings, with advice.
pub const ADVICE: &str =
    "A possible finding says nothing of the kernel: it is what the search could not show, and a replay of the launch at the least values \
     did not come there. A tighter condition may help (a range, a length, a requirement), or another way to write the kernel \
     (docs/KERNELS.md), or a certificate written by hand.";

/// The text behind lines with which a certificate is found.
pub const ENOUGH: &str =
    "With these lines of the conditions a certificate is found. The host has to keep to them.";

/// The text behind lines with which a certificate is found that passes the budget.
pub const OVER: &str =
    "With these lines of the conditions and a larger budget a certificate is found. The host has to keep to them.";

/// The meanings of refusals, and what to do about them, by their numbers.
const MEANINGS: &[(u8, &str)] = &[
    (
        1,
        "The kernel's text has a byte that begins no token, or a comment that a compiler may read otherwise: there is \
         no preprocessor, so write out what a macro stands for, and leave out backslashes in comments.",
    ),
    (
        2,
        "A comment in the kernel's text has no end: close it by */.",
    ),
    (
        3,
        "A number is too large for its type: stay below 2^31, and with u behind it below 2^32.",
    ),
    (
        4,
        "A number is badly written: write decimal digits or 0x and hexadecimal ones, perhaps with u behind them.",
    ),
    (
        5,
        "The kernel's text has more than 65,536 bytes: shorten it.",
    ),
    (
        10,
        "Another token is due there: compare the line with the grammar in docs/LANGUAGE.md.",
    ),
    (
        11,
        "The kernel is nested too deep, with over 64 open brackets or over 32 levels: take the expression or the \
         statement apart.",
    ),
    (
        12,
        "Something of the kernel is too many or too large: the limits are in docs/LANGUAGE.md.",
    ),
    (
        13,
        "The preprocessor cannot read that line, or what a macro makes of it: a conditional that is not balanced, a macro with \
         another number of arguments, or an #include. clang -E -P -x cl -cl-std=CL1.2 writes out what it stands for. What a host \
         defines by -D stands in lines define NAME TOKENS of the conditions (docs/FORMATS.md); a fault in one is told at 1:1.",
    ),
    (
        15,
        "Something of OpenCL C stands there that is left out: docs/OPENCL.md has what is read. Write it out by what is.",
    ),
    (
        19,
        "What was written out of the kernel is no sound core. That is a fault of kverify, and nothing is said of the kernel: \
         please report it with the kernel.",
    ),
    (
        20,
        "A name is used that nothing visible declares: declare it before. In OpenCL C a macro that the host defines is a line \
         define NAME TOKENS of the conditions (docs/FORMATS.md).",
    ),
    (
        21,
        "A name is declared that is visible already, or reserved: take another name.",
    ),
    (
        22,
        "An operand or a value has a wrong type: index a buffer to use its elements, and shift a uint. Read for any devices, \
         an id is of another type than a number, so cast it in min and max, as in min((uint)get_global_id(0), n); and the \
         functions of ids and sizes take a dimension of 0 to 2.",
    ),
    (
        23,
        "A const buffer is stored to: drop the const, or store elsewhere.",
    ),
    (
        24,
        "A local array is declared in a block: move it to the kernel's own body.",
    ),
    (
        25,
        "The index of an assignment with an operator has a load: take the index into a variable first.",
    ),
    (
        26,
        "A barrier has no fence flag: give it CLK_LOCAL_MEM_FENCE, CLK_GLOBAL_MEM_FENCE, or both.",
    ),
    (
        27,
        "A function is called that the language leaves out: do without it.",
    ),
    (
        28,
        "A break or a continue stands outside of any loop: drop it, or write return; to end the work-item there.",
    ),
    (
        29,
        "A variable is read there that may not be set on each way to it: give it a value where it is declared.",
    ),
    (
        30,
        "Something else is due in that line of the conditions: compare it with docs/FORMATS.md. Conditions of version 2 \
         are read with --wide.",
    ),
    (
        31,
        "That line names a parameter that the kernel does not have: take the kernel's names.",
    ),
    (
        32,
        "A line is missing there, or stands elsewhere: keep the order of the kernel's parameters.",
    ),
    (
        33,
        "A range has its ends exchanged: the lower one comes first.",
    ),
    (
        34,
        "A number passes its limit, or the text is too long: the limits are in docs/FORMATS.md.",
    ),
    (
        35,
        "The file leaves open what the conditions do not say either. It has several kernels: say which by a line kernel NAME. Its \
         work-group has no size: say it by a line local_size X Y Z. A __local pointer has no length: say it by a line local NAME \
         COUNT. These lines stand first, behind conditions 3 (docs/FORMATS.md). Or a line there says what the file contradicts.",
    ),
    (
        40,
        "The launch does not meet the condition of that line: change the launch, or the conditions.",
    ),
    (
        50,
        "That line of the certificate cannot stand there, or the text is too long: compare it with its format in \
         docs/FORMATS.md.",
    ),
    (
        51,
        "The certificate is of another version: versions 1 and 2 are read, and version 4 with --wide.",
    ),
    (
        52,
        "The certificate does not show the obligation of that number, or, with 0, it names what the kernel lacks or \
         leaves out a loop; that says nothing of the kernel: let prove look for a certificate, or see \
         docs/CERTIFICATES.md.",
    ),
    (
        53,
        "There are over 256 paths from one place, or over 65,536 obligations, which come of claims, and of pairs of \
         accesses. What prove looks at has more lines than a certificate needs: one with fewer lines, written by hand, may \
         be checked (docs/CERTIFICATES.md).",
    ),
    (
        54,
        "A number that is computed about the kernel leaves 64 bits: use smaller factors.",
    ),
    (
        55,
        "A turn of that loop can go by without the loop's barrier: put a barrier on each way through, or none into the \
         loop.",
    ),
    (
        56,
        "A work-item may take more steps than the budget: allow a larger budget in the conditions, or in a certificate \
         a lower limit of a loop.",
    ),
    (
        60,
        "No certificate was found, and there is nothing to point to; the kernel may be safe all the same: a tighter \
         condition may help, or a certificate written by hand, as docs/CERTIFICATES.md says.",
    ),
    (70, "There may be 1 to 64 workers: name such a number."),
];

/// The meaning of the refusal of a number, and what to do about it; of other numbers, where refusals are listed.
pub fn meaning(number: u8) -> &'static str {
    for (wanted, text) in MEANINGS {
        if *wanted == number {
            return text;
        }
    }
    "The numbers of refusals are in docs/FORMATS.md."
}

/// The digits of registrations, updates and withdrawals of printers, by name.
pub static MESSAGES: [(&str, &str); 12] = [
    (
        "a",
        "020300004e400000000000020002656e0000640017736572766963653a7072696e7465723a6c70723a2f2f61000013736572766963653a7072696e7465723a6c7072000744454641554c54000000",
    ),
    (
        "a-de",
        "020300004e40000000000002000264650000640017736572766963653a7072696e7465723a6c70723a2f2f61000013736572766963653a7072696e7465723a6c7072000744454641554c54000000",
    ),
    (
        "b",
        "020300004e400000000000020002656e0000640017736572766963653a7072696e7465723a6c70723a2f2f62000013736572766963653a7072696e7465723a6c7072000744454641554c54000000",
    ),
    (
        "c",
        "020300004e400000000000020002656e0000640017736572766963653a7072696e7465723a6c70723a2f2f63000013736572766963653a7072696e7465723a6c7072000744454641554c54000000",
    ),
    (
        "d",
        "020300004e400000000000020002656e0000640017736572766963653a7072696e7465723a6c70723a2f2f64000013736572766963653a7072696e7465723a6c7072000744454641554c54000000",
    ),
    (
        "e",
        "020300004e400000000000020002656e0000640017736572766963653a7072696e7465723a6c70723a2f2f65000013736572766963653a7072696e7465723a6c7072000744454641554c54000000",
    ),
    (
        "short",
        "020300004e400000000000020002656e0000050017736572766963653a7072696e7465723a6c70723a2f2f73000013736572766963653a7072696e7465723a6c7072000744454641554c54000000",
    ),
    (
        "dead",
        "020300004e400000000000020002656e0000000017736572766963653a7072696e7465723a6c70723a2f2f61000013736572766963653a7072696e7465723a6c7072000744454641554c54000000",
    ),
    (
        "founded",
        "020300005b400000000000020002656e00012c0017736572766963653a7072696e7465723a6c70723a2f2f61000013736572766963653a7072696e7465723a6c7072000744454641554c54000d28613d31292c28623d32292c6300",
    ),
    (
        "updated",
        "020300005b000000000000020002656e0001900017736572766963653a7072696e7465723a6c70723a2f2f61000013736572766963653a7072696e7465723a6c7072000744454641554c54000d28423d332c34292c28643d782900",
    ),
    (
        "tags-removed",
        "020400003c000000000000030002656e000744454641554c540000000017736572766963653a7072696e7465723a6c70723a2f2f61000004412c642a",
    ),
    (
        "removed",
        "0204000038000000000000030002656e000744454641554c540000000017736572766963653a7072696e7465723a6c70723a2f2f61000000",
    ),
];

/// What a directory of at most four entries is asked after messages and other events at their moments, in a scope or of a
/// message. In front of the answer stand the messages that it refused, with their codes.
pub const TABLE: &str = "
services¦¦Default¦
services¦¦other¦! Scope
services¦1 a, 1 a-de, 1 b, 1 short¦Default¦ service:printer:lpr://a 100 service:printer:lpr://b 100 service:printer:lpr://s 5
services¦1 a, 1 b, 9 sweep¦Default¦ service:printer:lpr://a 92 service:printer:lpr://b 92
number¦¦¦0
number¦1 a, 1 a-de, 1 b, 1 short¦¦4
number¦1 a, 1 a-de, 1 b, 1 short, 6 sweep¦¦3
number¦1 a, 1 a-de, 1 b, 1 short, 6 removed¦¦1
number¦0 a, 0 b, 0 c, 0 d, 99 e¦¦e 11 4
number¦0 a, 0 b, 0 c, 0 d, 0 a 100000 times, 100 e¦¦1
services¦0 a, 2 closed¦Default¦
services¦0 a, 2 closed, 3 open¦Default¦ service:printer:lpr://a 97
attributes¦¦Default¦
attributes¦0 founded¦Default¦(a=1),(b=2),c
attributes¦0 founded, 5 updated¦Default¦(a=1),(b=3,4),c,(d=x)
attributes¦0 founded, 5 updated, 6 tags-removed¦Default¦(b=3,4),c
services¦0 founded, 5 updated, 6 tags-removed¦Default¦ service:printer:lpr://a 399
attributes¦0 a-de¦Default¦! Language
attributes¦0 a¦other¦! Scope
types¦0 a, 0 b¦Default¦ service:printer:lpr
types¦0 a¦other¦! Scope
judged¦¦founded¦ 0 Rule(0) service:printer:lpr default 7 307; 0 Rule(0) service:printer:lpr default 7 307;
judged¦0 founded¦updated¦ 0 Rule(0) service:printer:lpr default 7 407; 0 Rule(0) service:printer:lpr default 7 407;
judged¦¦dead¦ 3 Registration - - 0 0; 3 Registration - - 0 0;
judged¦0 a¦removed¦ 0 Rule(1) service:printer:lpr default 0 0; 0 Rule(1) service:printer:lpr default 0 0;
judged¦¦removed¦ nothing; nothing;
";

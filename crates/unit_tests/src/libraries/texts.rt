use crate::tables::{Asking, Question, assert_table, lines};
use slp_scopes::ScopeList;
use slp_tags::TagList;
use slp_text::{Place, TextFault, escape_into, key, unescape, unescape_any};
use std::alloc::Global;

#[derive(Clone, Copy)]
struct Texts;

fn print_key(alloc: Global, text: &str, out: &mut String) -> Result<(), TextFault> {
    let made = key(alloc, text)?;
    Ok(out.push_str(made.as_str())?)
}

fn print_read(read: Result<String, TextFault>, out: &mut String) -> Result<(), TextFault> {
    let text = read?;
    Ok(out.push_str(text.as_str())?)
}

// Scopes, and those that they share with others.
fn print_scopes(alloc: Global, text: &str, other: &str, out: &mut String) -> Result<(), TextFault> {
    let scopes = ScopeList::parse(alloc, text)?;
    let other = ScopeList::parse(alloc, other)?;
    scopes.print_into(out)?;
    out.push(';')?;
    Ok(scopes.common(alloc, &other)?.print_into(out)?)
}

fn print_selected(alloc: Global, text: &str, tag: &str, out: &mut String) -> Result<(), TextFault> {
    let tag = key(alloc, tag)?;
    let tags = TagList::parse(alloc, text)?.copy(alloc)?;
    let told = if tags.selects(&tag) { "yes" } else { "no" };
    Ok(out.push_str(told)?)
}

fn print_text(alloc: Global, row: Question<'_>, out: &mut String) -> Result<(), TextFault> {
    let text = row.text;
    match row.word {
        "key" => print_key(alloc, text, out),
        "value" => Ok(escape_into(text, Place::Value, out)?),
        "tag" => Ok(escape_into(text, Place::Tag, out)?),
        "scope" => Ok(escape_into(text, Place::Scope, out)?),
        "escapes" => print_read(unescape(alloc, text), out),
        "bytes" => print_read(unescape_any(alloc, text), out),
        "scopes" => print_scopes(alloc, text, row.beside, out),
        _ => print_selected(alloc, text, row.beside, out),
    }
}

impl Asking for Texts {
    type Fault = TextFault;

    fn print(self, alloc: Global, row: Question<'_>, out: &mut String) -> Result<(), TextFault> {
        let text = lines(alloc, row.text, &[])?;
        let text = text.as_str();
        print_text(alloc, Question { text, ..row }, out)
    }
}

// Texts as keys, escaped as a value, a tag or a scope, and with their escapes read; scopes, and which of them stand among
// others; and whether tags select one.
const TABLE: &str = "
key¦  DEFAULT\t x ¦¦default x
key¦LUČIĆ¦¦lučić
key¦ﬁ\r¶ſß¦¦fi sss
key¦ \t¦¦
value¦(*_;+\\¶\u{7f},¦¦\\28*_;+\\5C\\0A\\7F\\2C
value¦č d¦¦č d
tag¦(*_;+\\¶\u{7f},¦¦\\28\\2A\\5F;+\\5C\\0A\\7F\\2C
scope¦(*_;+\\¶\u{7f},¦¦\\28\\2A_\\3B\\2B\\5C\\0A\\7F\\2C
escapes¦a\\2cb\\5F\\2Ač*;¦¦a,b_*č*;
bytes¦\\41b\\c4\\8D¦¦Abč
scopes¦Default , x¦¦default,x;
scopes¦,, a ,A,¦¦a;
scopes¦a\\2cb¦¦a\\2Cb;
scopes¦x,B, a\tb ,x¦¦a b,b,x;
scopes¦a_b¦¦a_b;
scopes¦¦¦;
scopes¦ , ¦¦;
scopes¦é,z\\2A\\5F¦¦z\\2A_,é;
scopes¦c,B,a¦x,b,C¦a,b,c;b,c
scopes¦c,B,a¦x¦a,b,c;
tags¦¦color¦yes
tags¦ , ,¦color¦yes
tags¦color¦COLOR¦yes
tags¦color¦colors¦no
tags¦size, Col*¦color¦yes
tags¦*or¦color¦yes
tags¦*o*o*¦color¦yes
tags¦*o*o*o*¦color¦no
tags¦c*r¦cr¦yes
tags¦*¦¦yes
tags¦a *¦a b¦yes
tags¦a *¦ab¦no
tags¦ * a¦x a¦yes
tags¦\\2A¦*¦yes
tags¦\\2a¦x¦no
tags¦x\\5F\\09 y¦x_ y¦yes
tags¦STRAß*¦strasse¦yes
tags¦ﬁ¦fi¦yes
escapes¦\\41¦¦! BadEscape
escapes¦\\2¦¦! BadEscape
escapes¦\\¦¦! BadEscape
escapes¦\\2g¦¦! BadEscape
escapes¦\\c4\\8d¦¦! BadEscape
escapes¦\\+2¦¦! BadEscape
bytes¦\\ff¦¦! NotUtf8
bytes¦\\c4¦¦! NotUtf8
bytes¦\\ff\\f¦¦! BadEscape
scopes¦a\\41¦¦! BadEscape
scopes¦a\\¦¦! BadEscape
scopes¦a\\,b¦¦! BadEscape
scopes¦a\\2,b¦¦! BadEscape
scopes¦a\\2¦¦! BadEscape
scopes¦b\\zz;¦¦! BadEscape
scopes¦a;b¦¦! Reserved
scopes¦a*¦¦! Reserved
scopes¦(a)¦¦! Reserved
scopes¦a=b¦¦! Reserved
scopes¦;\\zz¦¦! Reserved
scopes¦a\u{1}¦¦! Reserved
tags¦a\\41¦¦! BadEscape
tags¦a\\¦¦! BadEscape
tags¦a\\,b¦¦! BadEscape
tags¦\\*¦¦! BadEscape
tags¦a\\2*¦¦! BadEscape
tags¦b\\zz_¦¦! BadEscape
tags¦\\2ﬀ¦¦! BadEscape
tags¦a_b¦¦! Reserved
tags¦(a)¦¦! Reserved
tags¦a=b¦¦! Reserved
tags¦*,_\\zz¦¦! Reserved
tags¦a\u{1}¦¦! Reserved
tags¦x,a~¦¦! Reserved
";

#[test]
fn texts_are_read_and_written(rt: HostRuntime) {
    assert_table(&rt, rt.alloc(), Texts, TABLE);
}

/// Two templates.
pub const BOTH: &str =
    "template-type=each\ntemplate-version=1\ntemplate-description=\n\ntemplate-url-syntax=\n\ns = STRING M O\n\ni = INTEGER O\n\nb = BOOLEAN O\n\no = OPAQUE O\n\nk = KEYWORD\n\nw = STRING M O\nRed\n# allowed\nred, Straße, 7\n\nl = STRING O L X\nx\n# any\n;template-type=printer\ntemplate-version=1.0\ntemplate-description=\nA printer.\n\ntemplate-url-syntax=\n\ncolor = BOOLEAN\n# Whether it prints in colour.\n\nlocation = STRING O\n";

/// Templates, of which nothing is told; templates with `;` in between, and what is wrong with no attributes of a type; and
/// what is wrong with attributes of a type by both templates.
pub const TABLE: &str = "
template¦template-type=printer¶template-version=1.0¶template-description=¶A printer.¶¶template-url-syntax=¶¶color = BOOLEAN¶# Whether it prints in colour.¶¶location = STRING O¶¦¦
template¦template-type=a¶template-version=¶template-description=¶¶template-url-syntax=¦¦
template¦template-type=a¶template-version=¶template-description=¶¶template-url-syntax=¶¶¶¶¦¦
template¦¶ \t\r¶template-type=service:A.b\r¶\r¶template-version=1\r¶\r¶\r¶template-description=x\r¶\r¶template-url-syntax=y\r¶\r¶¦¦
template¦TEMPLATE-Type \t= \tPrinter ¶template-verſion =1¶template-description=¶template-url-syntax=no part¶¶template-url-syntax=¶¦¦
template¦template-type=a¶template-version=1¶template-description=¶¶template-url-syntax=¶¶a = string m o l x¶¦¦
template¦template-type=a¶template-version=1¶template-description=¶¶template-url-syntax=¶¶ A = Integer\tX  M¶1, 2,¶3¶# help¶ 7 ,¶# more¶8,¶¦¦
template¦template-type=a¶template-version=1¶template-description=¶¶template-url-syntax=¶¶a = KEYWORD¶# help¶¶b\\2a = OPAQUE¶\\FF\\00¶¦¦
template¦template-type=a¶template-version=1¶template-description=¶¶template-url-syntax=¶¶a = STRING¶1, true, text\\2c\\09, ,\\09¶¦¦
template¦template-type=a¶template-version=1¶template-description=¶¶template-url-syntax=¶¶a = BOOLEAN M¶#¶TRUE,falſe¶¦¦
template¦template-type=a¶template-version=1¶template-description=¶¶template-url-syntax=¶¶a#b = STRING¶¦¦
template¦template-type=a¶template-version=1¶template-description=¶# no help¶a=b¶ ¶template-url-syntax=¶any text¶¶¦¦
template¦template-type=a¶¶template-version=a=b¶¶¶template-description=¶¶¶template-url-syntax=¶¶¶a=STRING¶¶¶b=STRING¶¦¦
template¦template-type= 0-+._Z¶template-version=1¶template-description=¶¶template-url-syntax=¶¶a=STRING¦¦
template¦template-type=a¶template-version=1¶template-description=¶¶template-url-syntax=¶¶<<9999 tag-% = STRING¶¶>>tag-10000 = STRING¶¦¦
template¦template-type=a¶template-version=1¶¶template-description=<<1048496 x>>¶¶template-url-syntax=¶¦¦
site¦<<255 template-type=t%¶template-version=1¶template-description=¶¶template-url-syntax=¶¶needed = STRING¶;>>template-type=t256¶template-version=1¶template-description=¶¶template-url-syntax=¶¶needed = STRING¶¦service:t255:x¦0 Missing
site¦<<255 template-type=t%¶template-version=1¶template-description=¶¶template-url-syntax=¶¶needed = STRING¶;>>template-type=t256¶template-version=1¶template-description=¶¶template-url-syntax=¶¶needed = STRING¶¦service:t256¦0 Missing
site¦<<255 template-type=t%¶template-version=1¶template-description=¶¶template-url-syntax=¶¶needed = STRING¶;>>template-type=t256¶template-version=1¶template-description=¶¶template-url-syntax=¶¶needed = STRING¶¦service:t257:x¦conforms
site¦<<255 template-type=t%¶template-version=1¶template-description=¶¶template-url-syntax=¶¶needed = STRING¶;>>template-type=t256¶template-version=1¶template-description=¶¶template-url-syntax=¶¶needed = STRING¶¦service:t1¦0 Missing
check¦(color=true),(location=hall)¦service:printer:lpr¦conforms
check¦(color=FALSE)¦service:printer¦conforms
check¦(color=true,True),(other=1),more¦service:printer:ipp¦conforms
check¦(color=true),(location=7)¦service:printer¦conforms
check¦(color=true),(location=true)¦service:printer¦conforms
check¦¦printer¦conforms
check¦(color=7)¦http¦conforms
check¦¦service:printers¦conforms
check¦¦service:printe:r¦conforms
check¦¦service:each¦conforms
check¦(s=a,1,true)¦service:each:x¦conforms
check¦(i=-7)¦service:each¦conforms
check¦(b=false)¦service:each¦conforms
check¦(o=\\FF\\00)¦service:each¦conforms
check¦k¦service:each¦conforms
check¦(w=RED)¦service:each¦conforms
check¦(w=red,STRASSE,7)¦service:each¦conforms
check¦(l=y)¦service:each¦conforms
check¦(x=1,2,3),y¦service:each¦conforms
check¦k,(i=1),(s=)¦service:each¦conforms
check¦K¦SERVICE:Each:¦conforms
check¦(i=7,007)¦service:each¦conforms
check¦(location=hall)¦service:printer¦0 Missing
check¦¦service:printer¦0 Missing
check¦(color=red)¦service:printer¦0 WrongKind
check¦color¦service:printer¦0 WrongKind
check¦(color=true,false)¦service:printer¦0 Count
check¦(color=true,7)¦service:printer¦0 WrongKind
check¦(color=true),location¦service:printer:x¦1 WrongKind
check¦(color=true),(location=a,b)¦service:printer:x¦1 Count
check¦(color=7),(location=a,b)¦service:printer:x¦0 WrongKind
check¦s¦service:each¦0 WrongKind
check¦(s=a,\\FF\\00)¦service:each¦0 WrongKind
check¦(i=x)¦service:each¦1 WrongKind
check¦(i=2147483648)¦service:each¦1 WrongKind
check¦(b=1)¦service:each¦2 WrongKind
check¦(o=x)¦service:each¦3 WrongKind
check¦(o=\\FF\\00,\\FF\\01)¦service:each¦3 Count
check¦(k=1)¦service:each¦4 WrongKind
check¦(w=blue)¦service:each¦5 Value
check¦(w=red,8)¦service:each¦5 Value
check¦(w=true)¦service:each¦5 Value
check¦(w=red,blue),(i=1,2)¦service:each¦1 Count
template¦¦¦! Line(1)
template¦x¦¦! Line(1)
template¦ template-type=a¶¦¦! Line(1)
template¦template-type=¶¦¦! Line(1)
template¦template-type=service:a:b¶¦¦! Line(1)
template¦template-type=service:a:¶¦¦! Line(1)
template¦template-type=-a¶¦¦! Line(1)
template¦template-type=a b¶¦¦! Line(1)
template¦template-typ=a¶¦¦! Line(1)
template¦template-version=1¶template-type=a¶¦¦! Line(1)
template¦template-type=a¶template-version=1¶¶template-description=<<1048497 x>>¶¶template-url-syntax=¶¦¦! Line(1)
template¦¶¦¦! Line(2)
template¦template-type=a¦¦! Line(2)
template¦template-type=a¶¦¦! Line(2)
template¦¶template-type¶¦¦! Line(2)
template¦template-type=a¶template-type=a¶¦¦! Line(2)
template¦template-type=a¶version¶template-version=1¶¦¦! Line(2)
template¦template-type=a¶template-version=1¶¦¦! Line(3)
template¦template-type=a¶template-version=1¶template-url-syntax=¶¦¦! Line(3)
template¦¶¶ ¶¦¦! Line(4)
template¦template-type=a¶¶¶¦¦! Line(4)
template¦template-type=a¶template-version=1¶template-description=¶template-url-syntax=¶¦¦! Line(5)
template¦template-type=a¶template-version=1¶template-description=¶¶x¶¦¦! Line(5)
template¦template-type=a¶template-version=1¶template-description=¶¶¶¦¦! Line(6)
template¦template-type=a¶template-version=1¶template-description=¶¶template-url-syntax=¶¶a¶¦¦! Line(7)
template¦template-type=a¶template-version=1¶template-description=¶¶template-url-syntax=¶¶=STRING¶¦¦! Line(7)
template¦template-type=a¶template-version=1¶template-description=¶¶template-url-syntax=¶¶a=¶¦¦! Line(7)
template¦template-type=a¶template-version=1¶template-description=¶¶template-url-syntax=¶¶a=STRINGS¶¦¦! Line(7)
template¦template-type=a¶template-version=1¶template-description=¶¶template-url-syntax=¶¶a=M STRING¶¦¦! Line(7)
template¦template-type=a¶template-version=1¶template-description=¶¶template-url-syntax=¶¶a=STRING M m¶¦¦! Line(7)
template¦template-type=a¶template-version=1¶template-description=¶¶template-url-syntax=¶¶a=STRING Y¶¦¦! Line(7)
template¦template-type=a¶template-version=1¶template-description=¶¶template-url-syntax=¶¶a=STRING MO¶¦¦! Line(7)
template¦template-type=a¶template-version=1¶template-description=¶¶template-url-syntax=¶¶a*=STRING¶¦¦! Line(7)
template¦template-type=a¶template-version=1¶template-description=¶¶template-url-syntax=¶¶a\\41=STRING¶¦¦! Line(7)
template¦template-type=a¶template-version=1¶template-description=¶¶template-url-syntax=¶¶a=INTEGER¶# help¶1,x¶¦¦! Line(7)
template¦template-type=a¶template-version=1¶template-description=¶¶template-url-syntax=¶¶a=INTEGER¶1,,2¶¦¦! Line(7)
template¦template-type=a¶template-version=1¶template-description=¶¶template-url-syntax=¶¶a=OPAQUE¶x¶¦¦! Line(7)
template¦template-type=a¶template-version=1¶template-description=¶¶template-url-syntax=¶¶a=STRING¶\\41¶¦¦! Line(7)
template¦template-type=a¶template-version=1¶template-description=¶¶template-url-syntax=¶¶a=STRING¶x(¶¦¦! Line(7)
template¦template-type=printer¶template-version=1.0¶template-description=¶A printer.¶¶template-url-syntax=¶¶color = COLOUR¶¦¦! Line(8)
template¦template-type=a¶template-version=1¶template-description=¶¶template-url-syntax=¶¶¶# a = STRING¶¦¦! Line(8)
template¦template-type=a¶template-version=1¶template-description=¶¶template-url-syntax=¶¶a=STRING¶¶A =STRING¶¦¦! Line(9)
template¦template-type=a¶template-version=1¶template-description=¶¶template-url-syntax=¶¶b=STRING¶¶a=KEYWORD¶x¶¦¦! Line(9)
template¦template-type=a¶template-version=1¶template-description=¶¶template-url-syntax=¶¶<<9999 tag-% = STRING¶¶>>tag-5000 = STRING¶¦¦! Line(20005)
site¦<<255 template-type=t%¶template-version=1¶template-description=¶¶template-url-syntax=¶¶needed = STRING¶;>>template-type=t256¶template-version=1¶template-description=¶¶template-url-syntax=¶¶needed = STRING¶;template-type=t7¶template-version=1¶template-description=¶¶template-url-syntax=¶¦¦! TwiceType
site¦template-type=printer¶template-version=1.0¶template-description=¶A printer.¶¶template-url-syntax=¶¶color = BOOLEAN¶# Whether it prints in colour.¶¶location = STRING O¶;template-type=SERVICE:Printer¶template-version=2¶template-description=¶¶template-url-syntax=¶¦¦! TwiceType
site¦<<255 template-type=t%¶template-version=1¶template-description=¶¶template-url-syntax=¶¶needed = STRING¶;>>template-type=t256¶template-version=1¶template-description=¶¶template-url-syntax=¶¶needed = STRING¶;template-type=t257¶template-version=1¶template-description=¶¶template-url-syntax=¶¦¦! TooMany
";

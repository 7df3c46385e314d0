// What a line of a file stands for, if not for itself.
pub static LINES: [(&str, &str); 6] = [
    (
        "a",
        "[[rule]]\nname = 'a'\nfrom = ['0.0.0.0/0']\naction = 'register'\ntype = '*'\nscopes = ['*']\nverdict = 'allow'",
    ),
    (
        "b",
        "[[rule]]\nname = 'b'\nfrom = ['0.0.0.0/0']\naction = 'see'\ntype = '*'\nscopes = ['*']\nverdict = 'deny'",
    ),
    ("broken", "[[rule]]\nname = 'a'"),
    (
        "h",
        "[[hide]]\nname = 'h'\nfrom = ['0.0.0.0/0']\ntype = '*'\nscopes = ['*']\ntags = 'location'",
    ),
    (
        "i",
        "[[hide]]\nname = 'i'\nfrom = ['10.0.0.0/8', '11.1.1.1/32']\ntype = 'service:printer'\nscopes = ['a', 'B']\ntags = 'lo*, color'",
    ),
    (
        "a-hides",
        "[[hide]]\nname = 'a'\nfrom = ['0.0.0.0/0']\ntype = '*'\nscopes = ['*']\ntags = 'location'",
    ),
];

// Rule files by name.
pub static FILES: [(&str, &str); 12] = [
    (
        "house",
        "
version = 1

[[rule]]
name = 'printers'
from = ['10.0.0.0/8']
action = 'register'
type = 'service:printer'
scopes = ['DEFAULT']
verdict = 'allow'

[[rule]]
name = 'no-others'
from = ['10.0.0.0/8', '192.168.7.1/32']
action = 'register'
type = '*'
scopes = ['*']
verdict = 'deny'

[[rule]]
name = 'house'
from = ['192.168.7.9/16', '10.9.9.9/8']
action = 'see'
type = '*'
scopes = ['Upper Floor', 'lower']
verdict = 'allow'
",
    ),
    (
        "two",
        "version = 1\nrule = [{ name = 'first', from = ['10.1.2.3/8'], action = 'register', type = '*', scopes = ['*'], verdict = 'deny' }, { name = 'second', from = ['10.1.2.3/0'], action = 'register', type = '*', scopes = ['*'], verdict = 'allow' }]",
    ),
    (
        "everyone",
        "version = 1\nrule = [{ name = 'first', from = ['10.1.2.3/0'], action = 'register', type = '*', scopes = ['*'], verdict = 'allow' }]",
    ),
    (
        "eight-bits",
        "version = 1\nrule = [{ name = 'first', from = ['10.1.2.3/8'], action = 'register', type = '*', scopes = ['*'], verdict = 'allow' }]",
    ),
    (
        "all-bits",
        "version = 1\nrule = [{ name = 'first', from = ['10.1.2.3/32'], action = 'register', type = '*', scopes = ['*'], verdict = 'allow' }]",
    ),
    (
        "printers",
        "version = 1\nrule = [{ name = 'first', from = ['10.1.2.3/0'], action = 'register', type = 'service:printer', scopes = ['*'], verdict = 'allow' }]",
    ),
    (
        "one-scope",
        "version = 1\nrule = [{ name = 'first', from = ['10.1.2.3/0'], action = 'register', type = '*', scopes = ['DEFAULT'], verdict = 'allow' }]",
    ),
    ("none", "version = 1"),
    (
        "owners",
        "version = 2\nrule = [{ name = 'own', from = ['10.0.0.0/8'], action = 'register', type = '*', scopes = ['*'], verdict = 'allow', owner = true }, { name = 'not-own', from = ['10.0.0.0/8'], action = 'see', type = '*', scopes = ['*'], verdict = 'deny', owner = true }, { name = 'all', from = ['0.0.0.0/0'], action = 'see', type = '*', scopes = ['*'], verdict = 'allow', owner = false }]",
    ),
    (
        "second-version",
        "version = 2\nrule = [{ name = 'first', from = ['10.0.0.0/8'], action = 'register', type = '*', scopes = ['*'], verdict = 'allow' }]",
    ),
    (
        "hides",
        "version = 3\nhide = [{ name = 'hall', from = ['10.0.0.2/32'], type = 'service:printer', scopes = ['A'], tags = 'lo*' }, { name = 'others', from = ['10.0.0.0/8'], type = '*', scopes = ['*'], tags = 'color', spare-owner = true }]",
    ),
    (
        "many",
        "version = 1\n<<1023 [[rule]]\nname = 'r-%'\naction = 'see'\nfrom = ['0.0.0.0/0']\ntype = '*'\nscopes = ['*']\nverdict = 'allow'\n>>[[rule]]\nname = 'r-1024'\naction = 'register'\nfrom = ['0.0.0.0/0']\ntype = '*'\nscopes = ['*']\nverdict = 'allow'",
    ),
];

/// Files, and lines of a key of a file's only rule or hide table, with the names of what they have; and who asks for what action on a type, of whom,
/// in a scope, and what the file of a name decides, and what it hides.
pub const TABLE: &str = "
file¦version = 1¦¦
file¦version = 1¶rule = []¦¦
file¦version = 1¶rule = [{ name = 'a', from = ['0.0.0.0/0'], action = 'register', type = '*', scopes = ['*'], verdict = 'allow' }]¦¦ a
file¦version = 1¶a¦¦ a
file¦version = 1¶a¶b¦¦ a b
file¦version = 1¶<<1024 [[rule]]¶name = 'r-%'¶action = 'see'¶from = ['0.0.0.0/0']¶type = '*'¶scopes = ['*']¶verdict = 'allow'¶>>¦¦<<1024  r-%>>
file¦version = 1¶a¶b¶#<<1048359 x>>¦¦ a b
file¦version = 2¦¦
file¦version = 2¶a¶b¦¦ a b
file¦version = 2¶a¶owner = true¶b¶owner = false¦¦ a b
file¦version = 3¦¦
file¦version = 3¶rule = []¶hide = []¦¦
file¦version = 3¶a¶owner = true¶b¶owner = false¦¦ a b
file¦version = 3¶hide = [{ name = 'h', from = ['0.0.0.0/0'], type = '*', scopes = ['*'], tags = 'location' }]¦¦ hides h
file¦version = 3¶a¶b¶h¶i¦¦ a b hides h hides i
file¦version = 3¶i¶a¶h¶b¦¦ a b hides i hides h
file¦version = 3¶h¶spare-owner = true¶i¶spare-owner = false¦¦ spares h hides i
file¦version = 3¶<<1024 [[rule]]¶name = 'r-%'¶action = 'see'¶from = ['0.0.0.0/0']¶type = '*'¶scopes = ['*']¶verdict = 'allow'¶>>¦¦<<1024  r-%>>
file¦version = 3¶<<1024 [[hide]]¶name = 'h-%'¶from = ['0.0.0.0/0']¶type = '*'¶scopes = ['*']¶tags = 'location'¶>>¦¦<<1024  hides h-%>>
file¦version = 3¶<<1023 [[rule]]¶name = 'r-%'¶action = 'see'¶from = ['0.0.0.0/0']¶type = '*'¶scopes = ['*']¶verdict = 'allow'¶>>h¦¦<<1023  r-%>> hides h
file¦version = 3¶<<24 [[rule]]¶name = 'r-%'¶action = 'see'¶from = ['0.0.0.0/0']¶type = '*'¶scopes = ['*']¶verdict = 'allow'¶>><<1000 [[hide]]¶name = 'h-%'¶from = ['0.0.0.0/0']¶type = '*'¶scopes = ['*']¶tags = 'location'¶>>¦¦<<24  r-%>><<1000  hides h-%>>
name¦name = 'abcdefghijklmnopqrstuvwxyz-01234'¦¦ abcdefghijklmnopqrstuvwxyz-01234
name¦name = 'a-1'¦¦ a-1
name¦name = '-'¦¦ -
from¦from = ['010.000.0.01/08']¦¦ a
from¦from = ['255.255.255.255/32', '10.0.0.0/8']¦¦ a
action¦action = 'withdraw'¦¦ a
action¦action = 'see'¦¦ a
type¦type = 'service:printer'¦¦ a
type¦type = 'Service:Printer:'¦¦ a
type¦type = 'http'¦¦ a
scopes¦scopes = ['a,']¦¦ a
scopes¦scopes = ['a,A']¦¦ a
scopes¦scopes = ['a\\28b']¦¦ a
scopes¦scopes = [\"a\\\\28b\"]¦¦ a
scopes¦scopes = ['a', 'B', 'a']¦¦ a
verdict¦verdict = 'deny'¦¦ a
owner¦owner = true¦¦ a
owner¦owner = false¦¦ a
owner¦¦¦ a
tags¦tags = 'a,b'¦¦ hides a
tags¦tags = ' , b ,'¦¦ hides a
tags¦tags = '*'¦¦ hides a
tags¦tags = 'a\\28b*'¦¦ hides a
spare-owner¦spare-owner = true¦¦ spares a
spare-owner¦spare-owner = false¦¦ hides a
spare-owner¦¦¦ hides a
decided¦house 10.0.0.1 register service:printer¦DEFAULT¦allow by printers
decided¦house 10.255.255.255 register service:printer:lpr¦default¦allow by printers
decided¦house 10.0.0.1 register service:printers¦default¦deny by no-others
decided¦house 10.0.0.1 register http¦default¦deny by no-others
decided¦house 10.0.0.1 register service:printer¦lower¦deny by no-others
decided¦house 192.168.7.1 register service:printer¦default¦deny by no-others
decided¦house 192.168.7.2 register service:printer¦default¦deny by no rule
decided¦house 9.255.255.255 register service:printer¦default¦deny by no rule
decided¦house 11.0.0.0 register service:printer¦default¦deny by no rule
decided¦house 10.0.0.1 see http¦lower¦allow by house
decided¦house 192.168.255.255 see http¦lower¦allow by house
decided¦house 192.169.7.9 see http¦lower¦deny by no rule
decided¦house 192.168.7.9 see service:printer:lpr¦upper floor¦allow by house
decided¦house 192.168.7.9 see service:printer:lpr¦ UPPER  FLOOR ¦allow by house
decided¦house 10.0.0.1 see service:printer¦default¦deny by no rule
decided¦house 10.0.0.1 see service:printer¦upper¦deny by no rule
decided¦house 0.0.0.0 see service:printer¦lower¦deny by no rule
decided¦house 255.255.255.255 register service:printer¦default¦deny by no rule
decided¦house 10.0.0.1 withdraw service:printer¦default¦deny by no rule
decided¦house 192.168.7.1 withdraw http¦lower¦deny by no rule
decided¦two 10.255.255.255 register service:printer:lpr¦Default¦deny by first
decided¦two 11.0.0.0 register service:printer:lpr¦Default¦allow by second
decided¦everyone 11.0.0.0 register service:printer:lpr¦Default¦allow by first
decided¦everyone 255.255.255.255 register service:printer:lpr¦Default¦allow by first
decided¦eight-bits 10.255.255.255 register service:printer:lpr¦Default¦allow by first
decided¦eight-bits 11.0.0.0 register service:printer:lpr¦Default¦deny by no rule
decided¦eight-bits 10.0.0.0 register service:printer:lpr¦Default¦allow by first
decided¦eight-bits 9.255.255.255 register service:printer:lpr¦Default¦deny by no rule
decided¦all-bits 10.1.2.3 register service:printer:lpr¦Default¦allow by first
decided¦all-bits 10.1.2.2 register service:printer:lpr¦Default¦deny by no rule
decided¦printers 10.255.255.255 register service:printer:lpr¦Default¦allow by first
decided¦printers 10.255.255.255 register service:print¦Default¦deny by no rule
decided¦one-scope 10.255.255.255 register service:printer:lpr¦default¦allow by first
decided¦one-scope 10.255.255.255 register service:printer:lpr¦other¦deny by no rule
decided¦none 10.255.255.255 register service:printer:lpr¦Default¦deny by no rule
decided¦many 0.0.0.7 register http¦default¦allow by r-1024
decided¦owners 10.0.0.1 register http of 10.0.0.1¦default¦allow by own
decided¦owners 10.0.0.1 register http of 10.0.0.2¦default¦deny by no rule
decided¦owners 10.0.0.2 register http of 10.0.0.1¦default¦deny by no rule
decided¦owners 11.0.0.1 register http of 11.0.0.1¦default¦deny by no rule
decided¦owners 10.0.0.1 withdraw http of 10.0.0.1¦default¦deny by no rule
decided¦owners 10.0.0.1 see http of 10.0.0.1¦default¦deny by not-own
decided¦owners 10.0.0.1 see http of 11.0.0.1¦default¦allow by all
decided¦owners 11.0.0.1 see http of 11.0.0.1¦default¦allow by all
decided¦second-version 10.0.0.1 register http of 10.0.0.2¦default¦allow by first
decided¦everyone 10.0.0.1 register http of 10.0.0.2¦default¦allow by first
decided¦hides 10.0.0.2 see service:printer¦a¦deny by no rule
hidden¦hides 10.0.0.2 see service:printer:lpr of 10.0.0.1¦a¦ color location lock
hidden¦hides 10.0.0.2 see service:printer:lpr of 10.0.0.2¦a¦ location lock
hidden¦hides 10.0.0.2 see service:printer of 10.0.0.1¦b¦ color
hidden¦hides 10.0.0.2 see http of 10.0.0.1¦a¦ color
hidden¦hides 10.0.0.1 see service:printer of 10.0.0.2¦a¦ color
hidden¦hides 10.0.0.1 see service:printer of 10.0.0.1¦a¦
hidden¦hides 11.0.0.1 see service:printer of 10.0.0.2¦a¦
hidden¦owners 10.0.0.1 see http of 10.0.0.2¦default¦
file¦version = ¦¦! Toml
file¦version = 1¶version = 1¦¦! Toml
file¦version = 1¶a¶name = 'c'¦¦! Toml
file¦version = ¶#<<1048564 x>>¦¦! Toml
file¦¦¦! Shape(0)
file¦a¦¦! Shape(0)
file¦version = 4¶a¦¦! Shape(0)
file¦version = 0¶a¦¦! Shape(0)
file¦version = 9¶a¦¦! Shape(0)
file¦version = -1¶a¦¦! Shape(0)
file¦version = 1.0¶a¦¦! Shape(0)
file¦version = '1'¶a¦¦! Shape(0)
file¦version = 2.0¶a¦¦! Shape(0)
file¦version = -2¶a¦¦! Shape(0)
file¦version = 3.0¶a¦¦! Shape(0)
file¦version = -3¶a¦¦! Shape(0)
file¦version = true¶a¦¦! Shape(0)
file¦version = 1¶owner = true¶a¦¦! Shape(0)
file¦version = 1¶a¶[[hide]]¦¦! Shape(0)
file¦version = 1¶a¶h¦¦! Shape(0)
file¦version = 1¶hide = []¶a¦¦! Shape(0)
file¦version = 2¶owner = true¶a¦¦! Shape(0)
file¦version = 2¶a¶[[hide]]¦¦! Shape(0)
file¦version = 2¶a¶h¦¦! Shape(0)
file¦version = 2¶hide = []¶a¦¦! Shape(0)
file¦hide = []¶a¦¦! Shape(0)
file¦version = 3¶hides = []¶a¦¦! Shape(0)
file¦version = 3¶owner = true¶a¦¦! Shape(0)
file¦version = 3¶hide = 5¦¦! Shape(0)
file¦version = 3¶hide = 'h'¶broken¦¦! Shape(0)
file¦version = 3¶hide = { name = 'h', from = ['0.0.0.0/0'], type = '*', scopes = ['*'], tags = 'location' }¦¦! Shape(0)
file¦version = 3¶[hide]¦¦! Shape(0)
file¦version = 3¶rule = 5¶h¦¦! Shape(0)
file¦version = 1¶rule = 5¦¦! Shape(0)
file¦version = 1¶rule = 'a'¦¦! Shape(0)
file¦version = 1¶rule = { name = 'a', from = ['0.0.0.0/0'], action = 'register', type = '*', scopes = ['*'], verdict = 'allow' }¦¦! Shape(0)
file¦version = 1¶[rule]¦¦! Shape(0)
file¦owner = true¶version = 1¶broken¦¦! Shape(0)
file¦version = 4¶broken¦¦! Shape(0)
file¦version = 4¶h¶[[hide]]¦¦! Shape(0)
file¦version = 1¶<<1025 [[rule]]¶name = 'r-%'¶action = 'see'¶from = ['0.0.0.0/0']¶type = '*'¶scopes = ['*']¶verdict = 'allow'¶>>¦¦! Shape(0)
file¦version = 1¶broken¶<<1024 [[rule]]¶name = 'r-%'¶action = 'see'¶from = ['0.0.0.0/0']¶type = '*'¶scopes = ['*']¶verdict = 'allow'¶>>¦¦! Shape(0)
file¦version = 3¶broken¶<<1024 [[hide]]¶name = 'h-%'¶from = ['0.0.0.0/0']¶type = '*'¶scopes = ['*']¶tags = 'location'¶>>¦¦! Shape(0)
file¦version = 3¶<<1025 [[hide]]¶name = 'h-%'¶from = ['0.0.0.0/0']¶type = '*'¶scopes = ['*']¶tags = 'location'¶>>¦¦! Shape(0)
file¦version = 3¶<<1024 [[rule]]¶name = 'r-%'¶action = 'see'¶from = ['0.0.0.0/0']¶type = '*'¶scopes = ['*']¶verdict = 'allow'¶>>h¦¦! Shape(0)
file¦version = 3¶<<25 [[rule]]¶name = 'r-%'¶action = 'see'¶from = ['0.0.0.0/0']¶type = '*'¶scopes = ['*']¶verdict = 'allow'¶>><<1000 [[hide]]¶name = 'h-%'¶from = ['0.0.0.0/0']¶type = '*'¶scopes = ['*']¶tags = 'location'¶>>¦¦! Shape(0)
file¦version = 1¶a¶b¶#<<1048360 x>>¦¦! Shape(0)
file¦version = ¶#<<1048565 x>>¦¦! Shape(0)
file¦version = 1¶rule = [1]¦¦! Shape(1)
file¦version = 1¶rule = [[]]¦¦! Shape(1)
file¦version = 1¶[[rule]]¦¦! Shape(1)
file¦version = 1¶broken¶broken¦¦! Shape(1)
file¦version = 1¶broken¶<<1023 [[rule]]¶name = 'r-%'¶action = 'see'¶from = ['0.0.0.0/0']¶type = '*'¶scopes = ['*']¶verdict = 'allow'¶>>¦¦! Shape(1)
file¦version = 1¶rule = [{ name = 'a', from = ['0.0.0.0/0'], action = 'register', type = '*', scopes = ['*'], verdict = 'allow' }, 'x']¦¦! Shape(2)
file¦version = 1¶a¶broken¦¦! Shape(2)
file¦version = 1¶a¶broken¶a¦¦! Shape(2)
file¦version = 1¶a¶b¶owner = true¦¦! Shape(2)
file¦version = 1¶a¶b¶owner = false¦¦! Shape(2)
file¦version = 2¶broken¦¦! Shape(1)
file¦version = 2¶a¶b¶other = true¦¦! Shape(2)
file¦version = 3¶broken¦¦! Shape(1)
file¦version = 3¶a¶b¶spare-owner = true¦¦! Shape(2)
file¦version = 3¶a¶tags = 'location'¦¦! Shape(1)
file¦version = 3¶hide = [1]¦¦! Shape(1)
file¦version = 3¶hide = [[]]¦¦! Shape(1)
file¦version = 3¶[[hide]]¦¦! Shape(1)
file¦version = 3¶a¶[[hide]]¦¦! Shape(2)
file¦version = 3¶[[hide]]¶a¶b¦¦! Shape(3)
file¦version = 3¶[[hide]]¶a¶broken¦¦! Shape(2)
file¦version = 3¶a¶b¶h¶[[hide]]¶[[hide]]¦¦! Shape(4)
file¦version = 3¶a¶h¶owner = true¦¦! Shape(2)
file¦version = 3¶a¶h¶i¶owner = false¦¦! Shape(3)
file¦version = 3¶h¶action = 'see'¦¦! Shape(1)
file¦version = 3¶h¶verdict = 'deny'¦¦! Shape(1)
file¦version = 3¶h¶spare_owner = true¦¦! Shape(1)
file¦version = 3¶[[hide]]¶name = 'h'¶from = ['0.0.0.0/0']¶type = '*'¶tags = 'location'¦¦! Shape(1)
file¦version = 3¶[[hide]]¶name = 'h'¶from = []¶type = '*'¶scopes = ['*']¶tags = 'location'¦¦! Shape(1)
file¦version = 3¶[[hide]]¶name = 'H'¶from = ['0.0.0.0/0']¶type = '*'¶scopes = ['*']¶tags = 'location'¦¦! Shape(1)
file¦version = 3¶[[hide]]¶name = 'h'¶from = ['0.0.0.0/0']¶type = ''¶scopes = ['*']¶tags = 'location'¦¦! Shape(1)
file¦version = 3¶[[hide]]¶name = 'h'¶from = ['0.0.0.0/0']¶type = '*'¶scopes = []¶tags = 'location'¦¦! Shape(1)
file¦version = 3¶<<1023 [[rule]]¶name = 'r-%'¶action = 'see'¶from = ['0.0.0.0/0']¶type = '*'¶scopes = ['*']¶verdict = 'allow'¶>>[[hide]]¦¦! Shape(1024)
file¦version = 1¶<<1023 [[rule]]¶name = 'r-%'¶action = 'see'¶from = ['0.0.0.0/0']¶type = '*'¶scopes = ['*']¶verdict = 'allow'¶>>broken¦¦! Shape(1024)
file¦version = 1¶a¶a¦¦! TwiceName
file¦version = 1¶a¶b¶a¦¦! TwiceName
file¦version = 1¶a¶b¶b¦¦! TwiceName
file¦version = 3¶a¶a-hides¦¦! TwiceName
file¦version = 3¶a-hides¶b¶a¦¦! TwiceName
file¦version = 3¶h¶h¦¦! TwiceName
file¦version = 3¶a¶h¶i¶i¦¦! TwiceName
file¦version = 3¶a¶h¶a-hides¶[[hide]]¦¦! Shape(4)
name¦¦¦! Shape(1)
name¦name = 'a'¶owner = true¦¦! Shape(1)
name¦name = 'a'¶version = 1¦¦! Shape(1)
name¦name = ''¦¦! Shape(1)
name¦name = 'abcdefghijklmnopqrstuvwxyz-012345'¦¦! Shape(1)
name¦name = 'A'¦¦! Shape(1)
name¦name = 'a_b'¦¦! Shape(1)
name¦name = 'a b'¦¦! Shape(1)
name¦name = 'ä'¦¦! Shape(1)
name¦name = 5¦¦! Shape(1)
from¦¦¦! Shape(1)
from¦from = []¦¦! Shape(1)
from¦from = '0.0.0.0/0'¦¦! Shape(1)
from¦from = [5]¦¦! Shape(1)
from¦from = ['10.0.0.1']¦¦! Shape(1)
from¦from = ['10.0.0.1/33']¦¦! Shape(1)
from¦from = ['10.0.0/8']¦¦! Shape(1)
from¦from = ['10.0.0.256/8']¦¦! Shape(1)
from¦from = ['10.0.0.1/']¦¦! Shape(1)
from¦from = ['/8']¦¦! Shape(1)
from¦from = ['10.0.0.1/8/9']¦¦! Shape(1)
from¦from = [' 10.0.0.1/8']¦¦! Shape(1)
from¦from = ['10.0.0.1/8 ']¦¦! Shape(1)
from¦from = ['10.0.0.1/+8']¦¦! Shape(1)
from¦from = ['0.0.0.0/0', 'x']¦¦! Shape(1)
action¦¦¦! Shape(1)
action¦action = 'Register'¦¦! Shape(1)
action¦action = ''¦¦! Shape(1)
action¦action = 5¦¦! Shape(1)
type¦¦¦! Shape(1)
type¦type = ''¦¦! Shape(1)
type¦type = 'service:a:b:c'¦¦! Shape(1)
type¦type = '*a'¦¦! Shape(1)
type¦type = 5¦¦! Shape(1)
scopes¦¦¦! Shape(1)
scopes¦scopes = []¦¦! Shape(1)
scopes¦scopes = '*'¦¦! Shape(1)
scopes¦scopes = ['']¦¦! Shape(1)
scopes¦scopes = [',']¦¦! Shape(1)
scopes¦scopes = ['a,b']¦¦! Shape(1)
scopes¦scopes = ['*', 'a']¦¦! Shape(1)
scopes¦scopes = ['a', '*']¦¦! Shape(1)
scopes¦scopes = ['*', '*']¦¦! Shape(1)
scopes¦scopes = ['a(b']¦¦! Shape(1)
scopes¦scopes = [1]¦¦! Shape(1)
scopes¦scopes = ['a', 1]¦¦! Shape(1)
scopes¦scopes = ['a', '']¦¦! Shape(1)
verdict¦¦¦! Shape(1)
verdict¦verdict = 'maybe'¦¦! Shape(1)
verdict¦verdict = 'Allow'¦¦! Shape(1)
verdict¦verdict = ''¦¦! Shape(1)
verdict¦verdict = true¦¦! Shape(1)
verdict¦verdict = 1¦¦! Shape(1)
verdict¦verdict = ['allow']¦¦! Shape(1)
owner¦owner = 'true'¦¦! Shape(1)
owner¦owner = 1¦¦! Shape(1)
owner¦owner = [true]¦¦! Shape(1)
owner¦owner = { is = true }¦¦! Shape(1)
owner¦owners = true¦¦! Shape(1)
tags¦¦¦! Shape(1)
tags¦tags = ''¦¦! Shape(1)
tags¦tags = ' , '¦¦! Shape(1)
tags¦tags = 'a,b)'¦¦! Shape(1)
tags¦tags = 'a\\2'¦¦! Shape(1)
tags¦tags = 5¦¦! Shape(1)
tags¦tags = ['location']¦¦! Shape(1)
spare-owner¦spare-owner = 'true'¦¦! Shape(1)
spare-owner¦spare-owner = 1¦¦! Shape(1)
spare-owner¦spare-owner = [true]¦¦! Shape(1)
";

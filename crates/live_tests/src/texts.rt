// Texts of several tests.

// Two workers touch the one page, and a controller asks for what the monitor has.
pub(crate) const ONE_PAGE: &[u8] = b"\
damon live 1
seed 42
unit 1
cap 3
attrs 3 3 5
target 0x0 1
range 0 0x0 0x1000 0
passes 1
worker
touch 0 0x0
worker
touch 0 0x0
controller
show
end
";

// That each public function's promise leaves nothing open. There is no code here.
#![tactic(auto)]
